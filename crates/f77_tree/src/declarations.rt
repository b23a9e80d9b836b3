use crate::Name;
use df_sequence::{CharList, LongSequence, NumList, Sequence};

/// Bounds of the dimensions of an array.
pub type DimList = Sequence<Dim>;

/// Declarators, one after another.
pub type DeclList = Sequence<Decl>;

/// Ranges of letters, one after another.
pub type LetterRangeList = Sequence<LetterRange>;

/// Parts of COMMON statements.
pub type CommonPartList = Sequence<CommonPart>;

/// Parts of all COMMON statements of a program.
pub type AllCommonParts = LongSequence<CommonPart>;

/// Members of an EQUIVALENCE group, or items of DATA.
pub type MemberList = Sequence<Member>;

/// EQUIVALENCE groups.
pub type GroupList = Sequence<MemberList>;

/// EQUIVALENCE groups of a program.
pub type AllGroups = LongSequence<MemberList>;

/// Values of DATA.
pub type InitValueList = Sequence<InitValue>;

/// Parts of DATA statements.
pub type InitPartList = Sequence<InitPart>;

/// Parts of all DATA statements of a program.
pub type AllInitParts = LongSequence<InitPart>;

/// The characters of a character constant.
pub type Text = CharList;

/// The type of a name (ANSI X3.9-1978, section 4).
#[derive(Clone, Copy, Debug, PartialEq, Eq)]
pub enum Kind {
    Integer,
    Logical,
}

/// The bounds of a dimension (ANSI X3.9-1978, section 5.1).
#[derive(Clone, Copy, Debug, PartialEq, Eq)]
pub struct Dim {
    pub lo: i32,
    pub hi: i32,
}

/// A constant of DATA.
#[derive(Clone, Copy, Debug, PartialEq, Eq)]
pub enum Lit {
    Int(i32),
    Truth(bool),
}

/// A name with its dimensions, if it is an array.
#[derive(Drop)]
pub struct Decl {
    pub name: Name,
    pub dims: DimList,
}

/// Letters that give a kind to names that begin with them (ANSI X3.9-1978, section 8.5).
#[derive(Clone, Copy, Debug, PartialEq, Eq)]
pub struct LetterRange {
    pub kind: Kind,
    pub from: u8,
    pub to: u8,
}

/// A block of COMMON, unnamed for blank common, and the names in it (ANSI X3.9-1978, section 8.3).
#[derive(Drop)]
pub struct CommonPart {
    pub block: Option<Name>,
    pub decls: DeclList,
}

/// A variable or an array element with constant subscripts.
#[derive(Drop)]
pub struct Member {
    pub name: Name,
    pub subs: NumList,
}

/// A constant of DATA and how often it stands there.
#[derive(Clone, Copy, Debug, PartialEq, Eq)]
pub struct InitValue {
    pub times: u32,
    pub value: Lit,
}

/// Items of DATA and their values (ANSI X3.9-1978, section 9).
#[derive(Drop)]
pub struct InitPart {
    pub items: MemberList,
    pub values: InitValueList,
}
