ghost use Rattle.std.specs.Prelude.{◌≡◌, false, not, ◌||◌, [], None, map, flat_map, fold, OnOk, IfOk};
ghost use Rattle.std.specs.Result.{result_err};
ghost use Rattle.layout_rules.specs.Appearances.{appearing, has_real_name, names_in, names_in_item, names_if_any, own_names};
ghost use Rattle.layout_rules.specs.Faults.{first_line};
ghost use Rattle.layout_rules.specs.Layout.{names_of};
ghost use Rattle.declared_names.specs.KeptDeclarations.{Tells, is_array_by};
ghost use Rattle.declared_names.specs.Noting.{noted};
ghost use Rattle.layout_rules.specs.Types as types;

use crate::declarations::Declarations;
use df_sequence::{Copied, NoMemory};
use f77_tree::{
    CommonPart, Decl, InitPart, Kind, Labelled, Member, MemberList, Name, RawExpr, RawItem, Stmt,
};
use std::alloc::Global;
use symbol_table::{Names, Symbol};

/// The names that have appeared, and whether one of them is neither integer nor logical.
#[derive(Drop)]
pub(crate) struct Appeared {
    pub(crate) names: Names,
    pub(crate) has_real: bool,
}

impl Appeared {
    /// Adds a name where it isn't yet in the table.
    pub(crate) fn note(
        &mut self,
        alloc: Global,
        declared: &Declarations,
        name: &Name,
    ) -> Result<(), NoMemory>
        ensures { OnOk result (self.new ≡ noted declared.now self.old name.now) }
    {
        let kind = declared.kind(name);
        self.has_real |= kind.is_none();
        if self.names.has(name) {
            return Ok(());
        }
        let symbol = Symbol {
            kind: kind.unwrap_or(Kind::Integer),
            dims: declared.dims_of(alloc, name)?,
        };
        self.names.add(name.copy(alloc)?, symbol)
    }

    // Adds the name that an expression itself begins with.
    fn note_own(
        &mut self,
        alloc: Global,
        declared: &Declarations,
        e: &RawExpr,
    ) -> Result<(), NoMemory>
        ensures { OnOk result (self.new ≡ fold (noted declared.now) self.old (own_names (is_array_by declared.now) e.now)) }
    {
        match e {
            RawExpr::Named(name) => self.note(alloc, declared, name),
            RawExpr::Call(name, _) if is_variable(declared, name) => {
                self.note(alloc, declared, name)
            }
            _ => Ok(()),
        }
    }

    /// Adds the names of an expression, from left to right.
    pub(crate) fn note_in(
        &mut self,
        alloc: Global,
        declared: &Declarations,
        e: &RawExpr,
    ) -> Result<(), NoMemory>
        ensures { OnOk result (self.new ≡ fold (noted declared.now) self.old (names_in (is_array_by declared.now) e.now)) }
    {
        self.note_own(alloc, declared, e)?;
        if let RawExpr::Call(_, args) | RawExpr::Apply(_, args) = e {
            for arg in args.as_slice() {
                self.note_in(alloc, declared, arg)?;
            }
        }
        Ok(())
    }

    // Adds the names of declarators.
    fn note_decls(
        &mut self,
        alloc: Global,
        declared: &Declarations,
        decls: &[Decl],
    ) -> Result<(), NoMemory>
        ensures { OnOk result (self.new ≡ fold (noted declared.now) self.old (map (λ decl. decl.name) decls.now)) }
    {
        for decl in decls {
            self.note(alloc, declared, &decl.name)?;
        }
        Ok(())
    }

    // Adds the names of members.
    fn note_members(
        &mut self,
        alloc: Global,
        declared: &Declarations,
        members: &[Member],
    ) -> Result<(), NoMemory>
        ensures { OnOk result (self.new ≡ fold (noted declared.now) self.old (map (λ member. member.name) members.now)) }
    {
        for member in members {
            self.note(alloc, declared, &member.name)?;
        }
        Ok(())
    }

    // Adds the names in blocks of COMMON.
    fn note_commons(
        &mut self,
        alloc: Global,
        declared: &Declarations,
        parts: &[CommonPart],
    ) -> Result<(), NoMemory>
        ensures { OnOk result (self.new ≡ fold (noted declared.now) self.old (flat_map (λ part. map (λ decl. decl.name) part.decls) parts.now)) }
    {
        for part in parts {
            self.note_decls(alloc, declared, part.decls.as_slice())?;
        }
        Ok(())
    }

    // Adds the names in EQUIVALENCE groups.
    fn note_groups(
        &mut self,
        alloc: Global,
        declared: &Declarations,
        groups: &[MemberList],
    ) -> Result<(), NoMemory>
        ensures { OnOk result (self.new ≡ fold (noted declared.now) self.old (flat_map (λ group. map (λ member. member.name) group) groups.now)) }
    {
        for group in groups {
            self.note_members(alloc, declared, group.as_slice())?;
        }
        Ok(())
    }

    // Adds the names of the items of DATA.
    fn note_inits(
        &mut self,
        alloc: Global,
        declared: &Declarations,
        parts: &[InitPart],
    ) -> Result<(), NoMemory>
        ensures { OnOk result (self.new ≡ fold (noted declared.now) self.old (flat_map (λ part. map (λ item. item.name) part.items) parts.now)) }
    {
        for part in parts {
            self.note_members(alloc, declared, part.items.as_slice())?;
        }
        Ok(())
    }

    // Adds the names in expressions.
    fn note_each(
        &mut self,
        alloc: Global,
        declared: &Declarations,
        es: &[RawExpr],
    ) -> Result<(), NoMemory>
        ensures { OnOk result (self.new ≡ fold (noted declared.now) self.old (flat_map (names_in (is_array_by declared.now)) es.now)) }
    {
        for e in es {
            self.note_in(alloc, declared, e)?;
        }
        Ok(())
    }

    // Adds the names in items of output.
    fn note_items(
        &mut self,
        alloc: Global,
        declared: &Declarations,
        items: &[RawItem],
    ) -> Result<(), NoMemory>
        ensures { OnOk result (self.new ≡ fold (noted declared.now) self.old (flat_map (names_in_item (is_array_by declared.now)) items.now)) }
    {
        for item in items {
            self.note_item(alloc, declared, item)?;
        }
        Ok(())
    }

    // Adds the names in an item of output.
    fn note_item(
        &mut self,
        alloc: Global,
        declared: &Declarations,
        item: &RawItem,
    ) -> Result<(), NoMemory>
        ensures { OnOk result (self.new ≡ fold (noted declared.now) self.old (names_in_item (is_array_by declared.now) item.now)) }
    {
        match item {
            RawItem::Value(e) => self.note_in(alloc, declared, e),
            RawItem::Chars(_) => Ok(()),
        }
    }

    // Adds the names in the step of a DO, if it has one.
    fn note_step(
        &mut self,
        alloc: Global,
        declared: &Declarations,
        step: &Option<RawExpr>,
    ) -> Result<(), NoMemory>
        ensures { OnOk result (self.new ≡ fold (noted declared.now) self.old (names_if_any (is_array_by declared.now) step.now)) }
    {
        match step {
            None => Ok(()),
            Some(e) => self.note_in(alloc, declared, e),
        }
    }

    /// Adds the names of a statement, from left to right.
    pub(crate) fn note_stmt(
        &mut self,
        alloc: Global,
        declared: &Declarations,
        stmt: &Stmt,
    ) -> Result<(), NoMemory>
        ensures { OnOk result (self.new ≡ fold (noted declared.now) self.old (appearing (is_array_by declared.now) stmt.now)) }
    {
        match stmt {
            Stmt::TypeOf(_, decls) | Stmt::Dimension(decls) => {
                self.note_decls(alloc, declared, decls.as_slice())
            }
            Stmt::Common(parts) => self.note_commons(alloc, declared, parts.as_slice()),
            Stmt::Equivalence(groups) => self.note_groups(alloc, declared, groups.as_slice()),
            Stmt::Init(parts) => self.note_inits(alloc, declared, parts.as_slice()),
            Stmt::Assign(target, value) => {
                self.note_in(alloc, declared, target)?;
                self.note_in(alloc, declared, value)
            }
            Stmt::Print(items) => self.note_items(alloc, declared, items.as_slice()),
            Stmt::Take(targets) => self.note_each(alloc, declared, targets.as_slice()),
            Stmt::PickGoTo(_, value)
            | Stmt::SignIf(value, _, _, _)
            | Stmt::BlockIf(value)
            | Stmt::ElseIf(value) => self.note_in(alloc, declared, value),
            Stmt::ThenIf(cond, stmt) => {
                self.note_in(alloc, declared, cond)?;
                self.note_stmt(alloc, declared, stmt.get())
            }
            Stmt::Do(_, var, first, last, step) => {
                self.note(alloc, declared, var)?;
                self.note_in(alloc, declared, first)?;
                self.note_in(alloc, declared, last)?;
                self.note_step(alloc, declared, step)
            }
            _ => Ok(()),
        }
    }

    // Adds the names of all statements, up to the line of the first real name, if there is one.
    fn note_all(
        &mut self,
        alloc: Global,
        declared: &Declarations,
        stmts: &[Labelled],
    ) -> Result<Option<u32>, NoMemory>
        requires new { self.old ≡ record { names = []; has_real = false } }
        requires tells { Tells declared.now stmts.now }
        ensures names { IfOk result (λ line. line ≡ None → self.new.names ≡ names_of stmts.now) }
        ensures real { IfOk result (λ line. line ≡ first_line (has_real_name stmts.now) stmts.now) }
    {
        for s in stmts {
            self.note_stmt(alloc, declared, &s.stmt)?;
            if self.has_real {
                return Ok(Some(s.line));
            }
        }
        Ok(None)
    }
}

/// The names of a program with their kinds and dimensions, or the line of the first statement with a name that is neither
/// integer nor logical (ANSI X3.9-1978, section 4.1.2).
pub fn declared_names(alloc: Global, stmts: &[Labelled]) -> Result<Result<Names, u32>, NoMemory>
    ensures names { IfOk result (λ found. IfOk found (λ names. names ≡ names_of stmts.now)) }
    ensures real { IfOk result (λ found. result_err found ≡ first_line (has_real_name stmts.now) stmts.now) }
{
    let declared = Declarations::of(alloc, stmts)?;
    names_by(alloc, &declared, stmts)
}

// The names, where the declarations are those of the statements.
fn names_by(
    alloc: Global,
    declared: &Declarations,
    stmts: &[Labelled],
) -> Result<Result<Names, u32>, NoMemory>
    requires { Tells declared.now stmts.now }
    ensures names { IfOk result (λ found. IfOk found (λ names. names ≡ names_of stmts.now)) }
    ensures real { IfOk result (λ found. result_err found ≡ first_line (has_real_name stmts.now) stmts.now) }
{
    let mut seen = Appeared {
        names: Names::new(alloc),
        has_real: false,
    };
    match seen.note_all(alloc, declared, stmts)? {
        Some(line) => Ok(Err(line)),
        None => Ok(Ok(seen.names)),
    }
}

// Whether the name of a call is not that of an intrinsic function.
fn is_variable(declared: &Declarations, name: &Name) -> bool
    ensures { result ≡ (is_array_by declared.now name.now || not (types.is_intrinsic name.now)) }
{
    declared.is_array(name) || !is_intrinsic(name)
}

// Whether the name is that of an intrinsic function.
fn is_intrinsic(name: &Name) -> bool
    ensures { result ≡ types.is_intrinsic name.now }
{
    matches!(
        name.as_bytes(),
        b"MOD" | b"ABS" | b"IABS" | b"SIGN" | b"ISIGN" | b"MAX" | b"MAX0" | b"MIN" | b"MIN0"
    )
}
