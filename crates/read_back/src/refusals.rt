//! Faults of statements that no printed statement has.

ghost use Rattle.std.specs.Prelude.{◌≡◌, Bool, List, [], None, IfErr};
ghost use Rattle.f77_tree.specs.declared.programs.Program.{Program};
ghost use Rattle.f77_tree.specs.OtherPlaces.{without_places};
ghost use Rattle.layout_rules.specs.Appearances.{has_real_name};
ghost use Rattle.layout_rules.specs.Jumps.{jumps_into};
ghost use Rattle.layout_rules.specs.Labels.{is_labelled_twice, lacks_label};
ghost use Rattle.layout_rules.specs.Layout.{layout, names_of};
ghost use Rattle.layout_rules.specs.Nesting.{first_unnested};
ghost use Rattle.layout_rules.specs.Order.{is_out_of_order};
ghost use Rattle.layout_rules.specs.StorageFaults.{has_dims_twice, has_wrong_dims, has_wrong_member, is_common_twice};
ghost use Rattle.layout_rules.specs.TypeFaults.{has_wrong_type};
ghost use Rattle.flat_programs.specs.declared.statements.FlatLine.{FlatLine};
ghost use Rattle.read_back.specs.PrintedStatements.{CanBeText};
ghost use Rattle.read_back.specs.SourceStatements.{CanBeRead, NoneHas, statements_read};
ghost use Rattle.read_back.specs.StorageRefusals.{IsOfStorage};

/// No statement that a printed program is read as is out of order (ANSI X3.9-1978, section 3.5); none bears a label of another one, or
/// uses a label that no statement bears (sections 3.4 and 11); their DOs are nested, and none jumps into the range of a DO from outside
/// of it (sections 11.10 and 11.10.8).
pub fn printed_statements_are_in_order()
    ensures order { (q : Program) (flat : List FlatLine) → CanBeText q flat → NoneHas (λ whole. is_out_of_order) q flat }
    ensures label_once { (q : Program) (flat : List FlatLine) → CanBeText q flat → NoneHas (λ whole. is_labelled_twice) q flat }
    ensures label_borne { (q : Program) (flat : List FlatLine) → CanBeText q flat → NoneHas lacks_label q flat }
    ensures nesting { (q : Program) (flat : List FlatLine) → CanBeText q flat → first_unnested [] (statements_read q flat) ≡ None }
    ensures jumps { (q : Program) (flat : List FlatLine) → CanBeText q flat → NoneHas jumps_into q flat }
{}

/// The names that appear in the statements that a printed program is read as are those of its table, in this order, with their kinds and
/// dimensions (ANSI X3.9-1978, sections 4.1 and 5); so no name is real, no kind is given twice, and no kind is wrong (sections 8.4, 8.5
/// and 10). No array bears a name with which an intrinsic function is printed.
pub fn printed_names_are_those_of_the_table()
    ensures table { (q : Program) (flat : List FlatLine) → CanBeRead q flat → names_of (statements_read q flat) ≡ without_places q.names }
    ensures known { (q : Program) (flat : List FlatLine) → CanBeRead q flat → NoneHas has_real_name q flat }
    ensures kinds { (q : Program) (flat : List FlatLine) → CanBeRead q flat → NoneHas (λ whole. has_wrong_type (names_of whole)) q flat }
{}

/// No name stands twice in the COMMON statements that a printed program is read as (ANSI X3.9-1978, section 8.3).
pub fn printed_names_are_common_once()
    ensures { (q : Program) (flat : List FlatLine) → CanBeText q flat → NoneHas (λ whole. is_common_twice) q flat }
{}

/// Each array of a printed program has its dimensions in one of the statements that the program is read as, and no more elements than an
/// array may have; members of EQUIVALENCE and items of DATA lie within these dimensions (ANSI X3.9-1978, sections 5.1, 8.2 and 9).
pub fn printed_arrays_have_their_dimensions()
    ensures once { (q : Program) (flat : List FlatLine) → CanBeText q flat → NoneHas (λ whole. has_dims_twice) q flat }
    ensures sizes { (q : Program) (flat : List FlatLine) → CanBeText q flat → NoneHas (λ whole above. has_wrong_dims) q flat }
    ensures members { (q : Program) (flat : List FlatLine) → CanBeRead q flat → NoneHas (λ whole above. has_wrong_member (names_of whole)) q flat }
{}

/// The statements that a printed program is read as are refused by the layout, if at all, for what they ask of storage or of operations. No
/// array bears a name with which an intrinsic function is printed.
pub fn printed_programs_are_refused_for_storage_alone()
    ensures { (q : Program) (flat : List FlatLine) (checked : Bool) → CanBeRead q flat → IfErr (layout (statements_read q flat) checked) IsOfStorage }
{}
