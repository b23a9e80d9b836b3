//! Copies of trees: each is equal to its source, in memory of its own.
ghost use Rattle.std.specs.Prelude.{◌≡◌, IfOk};

use crate::{
    Access, CommonPart, Decl, Dim, Exec, ExecKind, Expr, InitPart, InitValue, Item, Labelled,
    LetterRange, Lit, Member, Name, NameInfo, Program, RawExpr, RawItem, Stmt,
};
use df_sequence::{Boxed, Copied, NoMemory, Sequence};
use std::alloc::Global;

impl Copied for Name {
    fn copy(&self, _alloc: Global) -> Result<Name, NoMemory> {
        Ok(self.again())
    }
}

// ---- declarations

impl Copied for Dim {
    fn copy(&self, _alloc: Global) -> Result<Dim, NoMemory> {
        Ok(*self)
    }
}

impl Copied for Lit {
    fn copy(&self, _alloc: Global) -> Result<Lit, NoMemory> {
        Ok(*self)
    }
}

impl Copied for LetterRange {
    fn copy(&self, _alloc: Global) -> Result<LetterRange, NoMemory> {
        Ok(*self)
    }
}

impl Copied for InitValue {
    fn copy(&self, _alloc: Global) -> Result<InitValue, NoMemory> {
        Ok(*self)
    }
}

impl Copied for Decl {
    fn copy(&self, alloc: Global) -> Result<Decl, NoMemory> {
        Ok(Decl {
            name: self.name.copy(alloc)?,
            dims: self.dims.copy(alloc)?,
        })
    }
}

impl Copied for CommonPart {
    fn copy(&self, alloc: Global) -> Result<CommonPart, NoMemory> {
        let block = match &self.block {
            None => None,
            Some(name) => Some(name.copy(alloc)?),
        };
        Ok(CommonPart {
            block,
            decls: self.decls.copy(alloc)?,
        })
    }
}

impl Copied for Member {
    fn copy(&self, alloc: Global) -> Result<Member, NoMemory> {
        Ok(Member {
            name: self.name.copy(alloc)?,
            subs: self.subs.copy(alloc)?,
        })
    }
}

impl Copied for InitPart {
    fn copy(&self, alloc: Global) -> Result<InitPart, NoMemory> {
        Ok(InitPart {
            items: self.items.copy(alloc)?,
            values: self.values.copy(alloc)?,
        })
    }
}

// ---- expressions

impl Copied for Expr {
    #[cycle(copies)]
    fn copy(&self, alloc: Global) -> Result<Expr, NoMemory> {
        match self {
            Expr::Const(z) => Ok(Expr::Const(*z)),
            Expr::Truth(b) => Ok(Expr::Truth(*b)),
            Expr::Input => Ok(Expr::Input),
            Expr::Read(access) => Ok(Expr::Read(access.copy(alloc)?)),
            Expr::Apply(op, args) => {
                let mut copied = Sequence::with_capacity(alloc, args.len() as usize)?;
                for arg in args.as_slice() {
                    copied.push(arg.copy(alloc)?)?;
                }
                Ok(Expr::Apply(*op, copied))
            }
        }
    }
}

impl Copied for Access {
    #[cycle(copies)]
    fn copy(&self, alloc: Global) -> Result<Access, NoMemory> {
        let mut copied = Sequence::with_capacity(alloc, self.subs.len() as usize)?;
        for sub in self.subs.as_slice() {
            copied.push(sub.copy(alloc)?)?;
        }
        Ok(Access {
            name: self.name,
            subs: copied,
        })
    }
}

// ---- programs

impl Copied for Item {
    fn copy(&self, alloc: Global) -> Result<Item, NoMemory> {
        match self {
            Item::Value(e) => Ok(Item::Value(e.copy(alloc)?)),
            Item::Chars(text) => Ok(Item::Chars(text.copy(alloc)?)),
        }
    }
}

impl Copied for NameInfo {
    fn copy(&self, alloc: Global) -> Result<NameInfo, NoMemory> {
        Ok(NameInfo {
            name: self.name.copy(alloc)?,
            kind: self.kind,
            dims: self.dims.copy(alloc)?,
            place: self.place,
        })
    }
}

impl Copied for ExecKind {
    fn copy(&self, alloc: Global) -> Result<ExecKind, NoMemory> {
        match self {
            ExecKind::Assign {
                target,
                value,
                next,
            } => Ok(ExecKind::Assign {
                target: target.copy(alloc)?,
                value: value.copy(alloc)?,
                next: *next,
            }),
            ExecKind::Print { items, next } => Ok(ExecKind::Print {
                items: items.copy(alloc)?,
                next: *next,
            }),
            ExecKind::Pass { next } => Ok(ExecKind::Pass { next: *next }),
            ExecKind::Test { cond, yes, no } => Ok(ExecKind::Test {
                cond: cond.copy(alloc)?,
                yes: *yes,
                no: *no,
            }),
            ExecKind::Sign {
                value,
                neg,
                zero,
                pos,
            } => Ok(ExecKind::Sign {
                value: value.copy(alloc)?,
                neg: *neg,
                zero: *zero,
                pos: *pos,
            }),
            ExecKind::Pick {
                value,
                targets,
                other,
            } => Ok(ExecKind::Pick {
                value: value.copy(alloc)?,
                targets: targets.copy(alloc)?,
                other: *other,
            }),
            ExecKind::DoStart {
                loop_no,
                var,
                first,
                last,
                step,
                body,
                exit,
            } => Ok(ExecKind::DoStart {
                loop_no: *loop_no,
                var: *var,
                first: first.copy(alloc)?,
                last: last.copy(alloc)?,
                step: step.copy(alloc)?,
                body: *body,
                exit: *exit,
            }),
            ExecKind::DoNext {
                loop_no,
                var,
                body,
                exit,
            } => Ok(ExecKind::DoNext {
                loop_no: *loop_no,
                var: *var,
                body: *body,
                exit: *exit,
            }),
            ExecKind::End => Ok(ExecKind::End),
        }
    }
}

impl Copied for Exec {
    fn copy(&self, alloc: Global) -> Result<Exec, NoMemory> {
        Ok(Exec {
            line: self.line,
            kind: self.kind.copy(alloc)?,
        })
    }
}

impl Copied for Program {
    fn copy(&self, alloc: Global) -> Result<Program, NoMemory> {
        Ok(Program {
            names: self.names.copy(alloc)?,
            words: self.words,
            initial: self.initial.copy(alloc)?,
            commons: self.commons.copy(alloc)?,
            groups: self.groups.copy(alloc)?,
            inits: self.inits.copy(alloc)?,
            execs: self.execs.copy(alloc)?,
            loops: self.loops,
        })
    }
}

// ---- statements

impl Copied for RawExpr {
    fn copy(&self, alloc: Global) -> Result<RawExpr, NoMemory> {
        match self {
            RawExpr::Int(z) => Ok(RawExpr::Int(*z)),
            RawExpr::Truth(b) => Ok(RawExpr::Truth(*b)),
            RawExpr::Named(name) => Ok(RawExpr::Named(name.copy(alloc)?)),
            RawExpr::Call(name, args) => {
                let mut copied = Sequence::with_capacity(alloc, args.len() as usize)?;
                for arg in args.as_slice() {
                    copied.push(arg.copy(alloc)?)?;
                }
                Ok(RawExpr::Call(name.copy(alloc)?, copied))
            }
            RawExpr::Apply(op, operands) => {
                let mut copied = Sequence::with_capacity(alloc, operands.len() as usize)?;
                for operand in operands.as_slice() {
                    copied.push(operand.copy(alloc)?)?;
                }
                Ok(RawExpr::Apply(*op, copied))
            }
        }
    }
}

impl Copied for RawItem {
    fn copy(&self, alloc: Global) -> Result<RawItem, NoMemory> {
        match self {
            RawItem::Value(e) => Ok(RawItem::Value(e.copy(alloc)?)),
            RawItem::Chars(text) => Ok(RawItem::Chars(text.copy(alloc)?)),
        }
    }
}

impl Copied for Labelled {
    fn copy(&self, alloc: Global) -> Result<Labelled, NoMemory> {
        Ok(Labelled {
            label: self.label,
            line: self.line,
            stmt: self.stmt.copy(alloc)?,
        })
    }
}

impl Copied for Stmt {
    fn copy(&self, alloc: Global) -> Result<Stmt, NoMemory> {
        match self {
            Stmt::Program => Ok(Stmt::Program),
            Stmt::Implicit(ranges) => Ok(Stmt::Implicit(ranges.copy(alloc)?)),
            Stmt::ImplicitNone => Ok(Stmt::ImplicitNone),
            Stmt::TypeOf(kind, decls) => Ok(Stmt::TypeOf(*kind, decls.copy(alloc)?)),
            Stmt::Dimension(decls) => Ok(Stmt::Dimension(decls.copy(alloc)?)),
            Stmt::Common(parts) => Ok(Stmt::Common(parts.copy(alloc)?)),
            Stmt::Equivalence(groups) => Ok(Stmt::Equivalence(groups.copy(alloc)?)),
            Stmt::Init(parts) => Ok(Stmt::Init(parts.copy(alloc)?)),
            Stmt::Assign(target, value) => {
                Ok(Stmt::Assign(target.copy(alloc)?, value.copy(alloc)?))
            }
            Stmt::Print(items) => Ok(Stmt::Print(items.copy(alloc)?)),
            Stmt::Take(targets) => Ok(Stmt::Take(targets.copy(alloc)?)),
            Stmt::Continue => Ok(Stmt::Continue),
            Stmt::Stop => Ok(Stmt::Stop),
            Stmt::GoTo(label) => Ok(Stmt::GoTo(*label)),
            Stmt::PickGoTo(labels, value) => {
                Ok(Stmt::PickGoTo(labels.copy(alloc)?, value.copy(alloc)?))
            }
            Stmt::SignIf(value, neg, zero, pos) => {
                Ok(Stmt::SignIf(value.copy(alloc)?, *neg, *zero, *pos))
            }
            Stmt::ThenIf(cond, stmt) => {
                let cond = cond.copy(alloc)?;
                let stmt = stmt.get().copy(alloc)?;
                Ok(Stmt::ThenIf(cond, Boxed::new(alloc, stmt)?))
            }
            Stmt::BlockIf(cond) => Ok(Stmt::BlockIf(cond.copy(alloc)?)),
            Stmt::ElseIf(cond) => Ok(Stmt::ElseIf(cond.copy(alloc)?)),
            Stmt::Else => Ok(Stmt::Else),
            Stmt::EndIf => Ok(Stmt::EndIf),
            Stmt::Do(label, var, first, last, step) => Ok(Stmt::Do(
                *label,
                var.copy(alloc)?,
                first.copy(alloc)?,
                last.copy(alloc)?,
                copied_step(step, alloc)?,
            )),
            Stmt::Sub(name, dummies) => Ok(Stmt::Sub(name.copy(alloc)?, dummies.copy(alloc)?)),
            Stmt::CallTo(name, arguments) => {
                Ok(Stmt::CallTo(name.copy(alloc)?, arguments.copy(alloc)?))
            }
            Stmt::Back => Ok(Stmt::Back),
            Stmt::End => Ok(Stmt::End),
        }
    }
}

// The step of a DO, if it has one.
fn copied_step(step: &Option<RawExpr>, alloc: Global) -> Result<Option<RawExpr>, NoMemory>
    ensures { IfOk result (λ copied. copied ≡ step.now) }
{
    match step {
        None => Ok(None),
        Some(e) => Ok(Some(e.copy(alloc)?)),
    }
}
