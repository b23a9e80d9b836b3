ghost use Rattle.std.specs.Prelude.{◌≡◌, ◌<◌, ◌≤◌, ◌^◌, [], true, false, Some, None, map, length, drop, IfSome, MatchOption};
ghost use Rattle.std.specs.List.{list_all};
ghost use Rattle.std.specs.String.{string_bytes};
ghost use Rattle.f77_tree.specs.Name.{is_figure};
ghost use Rattle.fixed_form.specs.Columns.{number};
ghost use Rattle.job_terms.specs.Tasks.{IsSampleNumber, asked_in as given_asked, task_meant as given_meant};
ghost use Rattle.dfc_driver.specs.Meant.{AreGameWords, IsJob, IsTask, asked_in, data_text, MayStand, meant, picks_text, task_meant};
ghost use Rattle.dfc_driver.specs.Words.{job_of, told_by as spec_told_by, play_of, forks_of, asked_of, dialect_after, run_of, sample_of, is_sample, after, text_of, limit_in as spec_limit_in, dialect_of, are_digits_to as spec_are_digits_to, is_piece as spec_is_piece, is_setting, is_text as spec_is_text, is_word as spec_is_word, is_number_to as spec_is_number_to, name_of, pieces_after, values_in, word_value};

use job_terms::{Asked, Task, Told};

/// What the words after the program's name ask for.
#[derive(Clone, Copy, Debug, PartialEq, Eq)]
pub enum Job<'a> {
    /// A task on the program of the text that the source has, in the checked dialect, where a result that is no word traps, or in
    /// the plain one, where results wrap to words.
    On(TaskWords<'a>, bool),
    /// The sample program with this number, and what becomes of it.
    Sample(u32),
}

/// What is done with a program, as far as words tell it without memory.
#[derive(Clone, Copy, Debug, PartialEq, Eq)]
pub enum TaskWords<'a> {
    /// The pieces, edges, classes and regions of its flow graph are written.
    Regions,
    /// The lines, nodes and wires of its net of operations are written.
    Graph,
    /// The game of its net of operations is played, and something told of it.
    Play(Told, GameWords<'a>),
    /// The game of its net is played in which the loads of a group fire in any order, and its output written, or where this is true
    /// the nodes as they fire.
    Forks(bool, GameWords<'a>),
    /// The text of its rewritten form is written.
    Regen,
    /// Its rewritten form is run, and the output written.
    Run(RunWords<'a>),
}

impl<'a> TaskWords<'a> {
    /// Its picks, as they stand in a word, or nothing.
    pub fn picks(self) -> &'a [u8]
        requires { IsTask self }
        ensures is { result.now ≡ picks_text self.entry }
        ensures may { MayStand Setting.Picks result.now }
    {
        match self {
            TaskWords::Play(_, words) | TaskWords::Forks(_, words) => words.picks,
            TaskWords::Regions | TaskWords::Graph | TaskWords::Regen | TaskWords::Run(_) => &[],
        }
    }

    /// Its data, as they stand in a word, or nothing.
    pub fn data(self) -> &'a [u8]
        requires { IsTask self }
        ensures is { result.now ≡ data_text self.entry }
        ensures may { MayStand Setting.Data result.now }
    {
        match self {
            TaskWords::Play(_, words) | TaskWords::Forks(_, words) => words.input,
            TaskWords::Run(words) => words.input,
            TaskWords::Regions | TaskWords::Graph | TaskWords::Regen => &[],
        }
    }

    /// The task, with its picks and its data.
    pub fn task<'b>(self, picks: &'b [u32], input: &'b Vec<i32>) -> Task<'b>
        requires picks { picks.now ≡ values_in number (picks_text self) }
        requires input { input.now.items ≡ values_in word_value (data_text self) }
        ensures { given_meant result ≡ task_meant self.entry }
    {
        match self {
            TaskWords::Regions => Task::Regions,
            TaskWords::Graph => Task::Graph,
            TaskWords::Play(told, words) => Task::Play(told, words.asked(picks, input)),
            TaskWords::Forks(nodes, words) => Task::Forks(nodes, words.asked(picks, input)),
            TaskWords::Regen => Task::Regen,
            TaskWords::Run(words) => Task::Run(words.limit, input),
        }
    }
}

/// What a game is asked to do, as far as words tell it without memory.
#[derive(Clone, Copy, Debug, PartialEq, Eq)]
pub struct GameWords<'a> {
    /// The most firings.
    pub limit: u64,
    /// The picks that choose nodes, as they stand in a word, or nothing: the source's own order.
    pub picks: &'a [u8],
    /// The words that READ takes, as they stand in a word, or nothing.
    pub input: &'a [u8],
}

impl GameWords<'_> {
    /// What the game is asked to do, with its picks and its data.
    pub fn asked<'b>(self, picks: &'b [u32], input: &'b Vec<i32>) -> Asked<'b>
        requires picks { picks.now ≡ values_in number self.picks.now }
        requires input { input.now.items ≡ values_in word_value self.input.now }
        ensures { given_asked result ≡ asked_in self.entry }
    {
        Asked {
            limit: self.limit,
            picks,
            input,
        }
    }
}

/// What a run is asked to do, as far as words tell it without memory.
#[derive(Clone, Copy, Debug, PartialEq, Eq)]
pub struct RunWords<'a> {
    /// The most steps.
    pub limit: u64,
    /// The words that READ takes, as they stand in a word, or nothing.
    pub input: &'a [u8],
}

/// A setting of a game or of a run.
#[derive(Clone, Copy, Debug, PartialEq, Eq)]
pub enum Setting {
    /// The most firings or steps.
    Limit,
    /// The picks that choose nodes.
    Picks,
    /// The words that READ takes.
    Data,
}

/// The job that the words ask for, or none where they have no meaning.
pub fn read_words(words: &[String]) -> Option<Job<'_>>
    ensures job { meant result ≡ job_of (map string_bytes words.now) }
    ensures texts { IfSome result IsJob }
{
    match words {
        [word, options @ ..] if word.as_str() == "regions" => {
            let checked = read_dialect(options)?;
            Some(Job::On(TaskWords::Regions, checked))
        }
        [word, options @ ..] if word.as_str() == "graph" => {
            let checked = read_dialect(options)?;
            Some(Job::On(TaskWords::Graph, checked))
        }
        [word, options @ ..] if word.as_str() == "regen" => {
            let checked = read_dialect(options)?;
            Some(Job::On(TaskWords::Regen, checked))
        }
        [word, options @ ..] if word.as_str() == "run" => read_run(options),
        [word, options @ ..] if word.as_str() == "sample" => read_sample(options),
        [word, options @ ..] if word.as_str() == "forks" => read_forks(options),
        [word, options @ ..] => {
            let told = told_by(word.as_str())?;
            read_game(told, options)
        }
        [] => None,
    }
}

// What is told of the game that this word asks for.
fn told_by(word: &str) -> Option<Told>
    ensures { result ≡ spec_told_by word.now }
{
    if word == "fire" {
        Some(Told::Output)
    } else if word == "trace" {
        Some(Told::Nodes)
    } else if word == "store" {
        Some(Told::Store)
    } else {
        None
    }
}

// The game that the words after `fire`, `trace` or `store` ask for.
fn read_game(told: Told, words: &[String]) -> Option<Job<'_>>
    ensures job { meant result ≡ play_of told (map string_bytes words.now) }
    ensures texts { IfSome result IsJob }
{
    let (asked, checked) = read_settings(words)?;
    Some(Job::On(TaskWords::Play(told, asked), checked))
}

// The game that the words after `forks` ask for.
fn read_forks(words: &[String]) -> Option<Job<'_>>
    ensures job { meant result ≡ forks_of (map string_bytes words.now) }
    ensures texts { IfSome result IsJob }
{
    match words {
        [word, options @ ..] if word.as_str() == "nodes" => {
            let (asked, checked) = read_settings(options)?;
            Some(Job::On(TaskWords::Forks(true, asked), checked))
        }
        _ => {
            let (asked, checked) = read_settings(words)?;
            Some(Job::On(TaskWords::Forks(false, asked), checked))
        }
    }
}

// The settings of a game, and after them the dialect: whether it is the checked one.
fn read_settings(words: &[String]) -> Option<(GameWords<'_>, bool)>
    ensures checked { MatchOption result (dialect_after (map string_bytes words.now) ≡ None) (λ read. dialect_after (map string_bytes words.now) ≡ Some read.1) }
    ensures asked { IfSome result (λ read. asked_in read.0 ≡ asked_of (map string_bytes words.now)) }
    ensures texts { IfSome result (λ read. AreGameWords read.0) }
{
    let (limit, words) = split_setting(Setting::Limit, words);
    let (picks, words) = split_setting(Setting::Picks, words);
    let (input, words) = split_setting(Setting::Data, words);
    let checked = read_dialect(words)?;
    let limit = limit_in(limit);
    Some((
        GameWords {
            limit,
            picks,
            input,
        },
        checked,
    ))
}

// The run that the words after `run` ask for.
fn read_run(words: &[String]) -> Option<Job<'_>>
    ensures job { meant result ≡ run_of (map string_bytes words.now) }
    ensures texts { IfSome result IsJob }
{
    let (limit, words) = split_setting(Setting::Limit, words);
    let (input, words) = split_setting(Setting::Data, words);
    let checked = read_dialect(words)?;
    let limit = limit_in(limit);
    Some(Job::On(TaskWords::Run(RunWords { limit, input }), checked))
}

// The sample that the words after `sample` ask for.
fn read_sample(words: &[String]) -> Option<Job<'_>>
    ensures job { meant result ≡ sample_of (map string_bytes words.now) }
    ensures texts { IfSome result IsJob }
{
    match words {
        [word] => {
            let n = sample_number(word.as_str().as_bytes())?;
            Some(Job::Sample(n))
        }
        _ => None,
    }
}

// The number of a sample that a word tells, from 1 to 2,000.
fn sample_number(word: &[u8]) -> Option<u32>
    ensures is { MatchOption result (is_sample word.now ≡ false) (λ n. is_sample word.now ≡ true) }
    ensures value { IfSome result (λ n. n ≡ number word.now) }
    ensures range { IfSome result IsSampleNumber }
{
    if !are_digits_to(18, word) {
        return None;
    }
    let n = number_in(word);
    if 1 <= n && n <= 2000 {
        Some(n as u32)
    } else {
        None
    }
}

// What a setting says that stands before the words, if it does, and the words after it.
fn split_setting(setting: Setting, words: &[String]) -> (&[u8], &[String])
    ensures text { result.0.now ≡ text_of setting (map string_bytes words.now) }
    ensures may { MayStand setting result.0.now }
    ensures rest { map string_bytes result.1.now ≡ after setting (map string_bytes words.now) }
{
    match words {
        [word, rest @ ..] => match setting_text(setting, word.as_str().as_bytes()) {
            Some(text) => (text, rest),
            None => (&[], words),
        },
        [] => (&[], words),
    }
}

// What a word says that is such a setting.
fn setting_text(setting: Setting, word: &[u8]) -> Option<&[u8]>
    ensures is { MatchOption result (is_setting setting word.now ≡ false) (λ text. is_setting setting word.now ≡ true) }
    ensures text { IfSome result (λ text. text.now ≡ drop (length (name_of setting)) word.now) }
{
    let text = match setting {
        Setting::Limit => word.strip_prefix(b"limit=")?,
        Setting::Picks => word.strip_prefix(b"picks=")?,
        Setting::Data => word.strip_prefix(b"data=")?,
    };
    if is_text(setting, text) {
        Some(text)
    } else {
        None
    }
}

// The limit that the text tells. Without a text it is a million.
fn limit_in(text: &[u8]) -> u64
    requires { MayStand Setting.Limit text.now }
    ensures { result ≡ spec_limit_in text.now }
{
    if text.is_empty() {
        1_000_000
    } else {
        number_in(text)
    }
}

// Whether the last word chooses the checked dialect.
fn read_dialect(words: &[String]) -> Option<bool>
    ensures { result ≡ dialect_of (map string_bytes words.now) }
{
    match words {
        [] => Some(false),
        [word] if word.as_str() == "checked" => Some(true),
        _ => None,
    }
}

// Whether such a text may stand after the name of the setting.
fn is_text(setting: Setting, text: &[u8]) -> bool
    ensures { result ≡ spec_is_text setting text.now }
{
    match setting {
        Setting::Limit => is_piece(Setting::Limit, text),
        Setting::Picks | Setting::Data => are_pieces(setting, text),
    }
}

// Whether each piece between commas may stand there.
fn are_pieces(setting: Setting, text: &[u8]) -> bool
    ensures { result ≡ list_all (spec_is_piece setting) (pieces_after [] text.now) }
{
    let mut begin = 0;
    for (k, c) in text.iter().enumerate() {
        if *c == b',' {
            if !is_piece(setting, &text[begin..k]) {
                return false;
            }
            begin = k + 1;
        }
    }
    is_piece(setting, &text[begin..])
}

// Whether the piece may stand between commas.
fn is_piece(setting: Setting, piece: &[u8]) -> bool
    ensures { result ≡ spec_is_piece setting piece.now }
{
    match setting {
        Setting::Limit => are_digits_to(18, piece),
        Setting::Picks => are_digits_to(9, piece),
        Setting::Data => is_word(piece),
    }
}

// Whether the piece is a word in decimal.
fn is_word(piece: &[u8]) -> bool
    ensures { result ≡ spec_is_word piece.now }
{
    match piece {
        [] => false,
        [b'-', digits @ ..] => is_number_to(2_147_483_648, digits),
        _ => is_number_to(2_147_483_647, piece),
    }
}

// Whether the piece is one to ten digits, of a number up to the greatest.
fn is_number_to(greatest: u64, piece: &[u8]) -> bool
    ensures { result ≡ spec_is_number_to greatest piece.now }
{
    are_digits_to(10, piece) && number_in(piece) <= greatest
}

// Whether the piece is one to so many digits.
fn are_digits_to(most: usize, piece: &[u8]) -> bool
    ensures { result ≡ spec_are_digits_to most piece.now }
{
    !piece.is_empty() && piece.len() <= most && are_digits(piece)
}

fn are_digits(piece: &[u8]) -> bool
    ensures { result ≡ list_all is_figure piece.now }
{
    piece.iter().all(|&b| b'0' <= b && b <= b'9')
}

/// The number that digits write.
pub fn number_in(digits: &[u8]) -> u64
    requires digits { list_all is_figure digits.now ≡ true }
    requires few { length digits.now ≤ 18 }
    ensures value { result ≡ number digits.now }
    ensures small { result < 10 ^ length digits.now }
{
    let mut number: u64 = 0;
    for b in digits {
        number = 10 * number + u64::from(*b - b'0');
    }
    number
}
