//! The program tree of integer Fortran 77, its validity and its meaning.
#![tactic(auto)]

mod copies;
mod declarations;
mod evaluation;
mod expression_laws;
mod expressions;
mod foresight;
mod laws;
mod name_keys;
mod names;
mod programs;
mod statements;
mod table_laws;

pub use declarations::{
    AllCommonParts, AllGroups, AllInitParts, CommonPart, CommonPartList, Decl, DeclList, Dim,
    DimList, GroupList, InitPart, InitPartList, InitValue, InitValueList, Kind, LetterRange,
    LetterRangeList, Lit, Member, MemberList, Text,
};
pub use evaluation::{evaluate, locate};
pub use expression_laws::{
    dialects_settle_operators, logical_values_are_truths, what_cannot_trap_has_a_value,
};
pub use expressions::{Access, Expr, ExprList};
pub use foresight::{Foresight, exec_may_trap, foresee};
pub use laws::{
    accesses_stay_in_their_names, executables_keep_the_rest, executables_lead_to_successors,
    known_values_are_right, longer_tables_agree, ranges_have_counts, reads_decide, runs_hold_words,
    runs_stay_inside, runs_stop_first, statements_bound_operations, stopped_runs_stay,
    well_formed_programs_can_run, what_cannot_trap_does_not, what_takes_data_can_trap,
};
pub use names::Name;
pub use programs::{Exec, ExecKind, ExecList, Item, ItemList, NameInfo, NameInfoList, Program};
pub use statements::{
    Labelled, LabelledList, NameList, RawExpr, RawItem, RawItemList, RawList, Stmt,
};
pub use table_laws::{equations_settle_places, scalars_can_be_added};
