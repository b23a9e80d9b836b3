ghost use Rattle.std.specs.Prelude.{◌≡◌};
ghost use Rattle.layout_rules.specs.Roles.{is_target_role, role_of};

use f77_tree::Stmt;
use layout_rules::Role;

pub(crate) fn role_in(stmt: &Stmt) -> Role
    ensures { result ≡ role_of stmt.now }
{
    match stmt {
        Stmt::Program
        | Stmt::Implicit(_)
        | Stmt::ImplicitNone
        | Stmt::TypeOf(_, _)
        | Stmt::Dimension(_)
        | Stmt::Common(_)
        | Stmt::Equivalence(_)
        | Stmt::Init(_)
        | Stmt::Sub(_, _) => Role::Declaration,
        Stmt::Do(label, _, _, _, _) => Role::BeginLoop(*label),
        Stmt::BlockIf(_) => Role::BeginBlock,
        Stmt::ElseIf(_) => Role::NextArm,
        Stmt::Else => Role::LastArm,
        Stmt::EndIf => Role::EndBlock,
        Stmt::End => Role::Finish,
        Stmt::Stop | Stmt::GoTo(_) | Stmt::SignIf(_, _, _, _) | Stmt::Back => Role::Leave,
        Stmt::Assign(_, _)
        | Stmt::Print(_)
        | Stmt::Take(_)
        | Stmt::Continue
        | Stmt::PickGoTo(_, _)
        | Stmt::ThenIf(_, _)
        | Stmt::CallTo(_, _) => Role::Plain,
    }
}

/// Whether control may go to the label of a statement with this role: it is executable, and no ELSE IF or ELSE.
pub(crate) fn may_be_target(role: Role) -> bool
    ensures { result ≡ is_target_role role }
{
    match role {
        Role::Declaration | Role::NextArm | Role::LastArm => false,
        _ => true,
    }
}
