ghost use Rattle.std.specs.Prelude.{◌≡◌, ◌<◌, ◌≤◌, ℕ, List, [], ◌++◌, length, vec_capacity, IfOk};
ghost use Rattle.f77_tree.specs.CanRun.{CanRun};
ghost use Rattle.f77_tree.specs.Value.{word_at};
ghost use Rattle.f77_meaning.specs.Room.{most_room};

use crate::executing::execute;
use crate::line::write_line;
use crate::room::longest_line;
use crate::storage::{Storage, initial_storage, word_in};
use df_sequence::NoMemory;
use f77_tree::{ExecKind, Program};
use op_table::Trap;
use std::alloc::Global;
use std::mem::swap;

/// What a step did.
#[derive(Clone, Copy, Debug, PartialEq, Eq)]
pub enum Stepped {
    /// It wrote nothing, and the run goes on.
    Moved,
    /// It wrote a line, and the run goes on.
    Line,
    /// The run has ended.
    Ended,
    /// The run has trapped at this line of the source.
    Trapped(Trap, u32),
}

// Whether the run goes on.
#[derive(Clone, Copy, Debug, PartialEq, Eq)]
enum Progress {
    Going,
    Done,
    Failed(Trap, u32),
}

/// A run of a program over its data, one executable at each step. All memory is taken when it is made.
#[derive(Drop)]
pub struct Stepper<'a> {
    program: &'a Program,
    input: Vec<i32>,
    position: u32,
    storage: Storage,
    // The line that was made last, and the one that is being made.
    line: Vec<u8>,
    draft: Vec<u8>,
    progress: Progress,
    ghost place: { position < length program.now.execs },
    ghost words: { length storage.store.items ≡ program.now.words },
    ghost counts: { length storage.counts.items ≡ program.now.loops },
    ghost steps: { length storage.steps.items ≡ program.now.loops },
    ghost data: { storage.taken ≤ length input.items },
    ghost line_room: { most_room program.now.execs ≤ vec_capacity line },
    ghost draft_room: { most_room program.now.execs ≤ vec_capacity draft },
}

impl<'a> Stepper<'a> {
    ghost use Rattle.f77_tree.specs.Run.{step, start, Running};
    ghost use Rattle.f77_meaning.specs.Stepper.{program_of, input_of, state_of, last_line, told_mark, told_text, KeepsLine};

    /// A run at its beginning, over a copy of the data. It takes the store, the counts of DOs, and room for the longest
    /// line.
    pub fn new(alloc: Global, p: &'a Program, input: &Vec<i32>) -> Result<Stepper<'a>, NoMemory>
        requires { CanRun p.now }
        ensures program { IfOk result (λ s. program_of s ≡ p.now) }
        ensures data { IfOk result (λ s. input_of s ≡ input.now.items) }
        ensures state { IfOk result (λ s. state_of s [] ≡ start p.now) }
        ensures line { IfOk result (λ s. last_line s ≡ []) }
    {
        let room = longest_line(p.execs.as_slice());
        Ok(Stepper {
            program: p,
            input: Vec::from_slice(alloc, input)?,
            position: 0,
            storage: initial_storage(alloc, p)?,
            line: Vec::with_capacity(alloc, room)?,
            draft: Vec::with_capacity(alloc, room)?,
            progress: Progress::Going,
        })
    }

    /// One step. After Ended or Trapped it answers the same, and nothing changes. It takes no memory.
    pub fn step(&mut self) -> Stepped
        requires { CanRun (program_of self.old) }
        ensures program { program_of self.new ≡ program_of self.old }
        ensures data { input_of self.new ≡ input_of self.old }

        // Whatever was written before, the state is the next one of the run.
        ensures state { (out : List ℕ) → step (program_of self.old) (input_of self.old) (state_of self.old out) ≡ state_of self.new (out ++ told_text result (last_line self.new)) }
        ensures mark { (state_of self.new []).mark ≡ told_mark result }
        ensures line { KeepsLine result (last_line self.old) (last_line self.new) }
    {
        match self.progress {
            Progress::Going => self.run(),
            Progress::Done => Stepped::Ended,
            Progress::Failed(trap, line) => Stepped::Trapped(trap, line),
        }
    }

    // A step that runs an executable.
    fn run(&mut self) -> Stepped
        requires program { CanRun (program_of self.old) }
        requires going { (state_of self.old []).mark ≡ Running }
        ensures program { program_of self.new ≡ program_of self.old }
        ensures data { input_of self.new ≡ input_of self.old }
        ensures state { (out : List ℕ) → step (program_of self.old) (input_of self.old) (state_of self.old out) ≡ state_of self.new (out ++ told_text result (last_line self.new)) }
        ensures mark { (state_of self.new []).mark ≡ told_mark result }
        ensures line { KeepsLine result (last_line self.old) (last_line self.new) }
    {
        let program = self.program;
        let exec = program.execs.at(self.position);
        match &exec.kind {
            ExecKind::Print { items, next } => {
                let printed = write_line(
                    &mut self.draft,
                    items,
                    &program.names,
                    &self.storage.store,
                );
                if let Err(trap) = printed {
                    self.progress = Progress::Failed(trap, exec.line);
                    return Stepped::Trapped(trap, exec.line);
                }
                swap(&mut self.line, &mut self.draft);
                self.position = *next;
                Stepped::Line
            }
            ExecKind::End => {
                self.progress = Progress::Done;
                Stepped::Ended
            }
            kind => match execute(&mut self.storage, program, &self.input, kind) {
                Ok(next) => {
                    self.position = next;
                    Stepped::Moved
                }
                Err(trap) => {
                    self.progress = Progress::Failed(trap, exec.line);
                    Stepped::Trapped(trap, exec.line)
                }
            },
        }
    }

    /// The executable that the next step runs; after Ended or Trapped that of the last one.
    pub fn position(&self) -> u32
        ensures position { result ≡ (state_of self.now []).position }
        ensures exists { result < length (program_of self.now).execs }
    {
        self.position
    }

    /// The line of the last step that made one, with its line feed; empty before one did.
    pub fn line(&self) -> &[u8]
        ensures { result.now ≡ last_line self.now }
    {
        &self.line
    }

    /// The word of the store with this number.
    pub fn word(&self, k: u32) -> i32
        requires { k < (program_of self.now).words }
        ensures { result ≡ word_at (state_of self.now []).memory.store k }
    {
        word_in(&self.storage.store, k)
    }
}
