ghost use Rattle.std.specs.Prelude.{◌≡◌, ◌||◌, map, false};
ghost use Rattle.std.specs.Option.{is_some};
ghost use Rattle.sv_names.specs.Defaults as spec;

use sv_tree::{Arm, Branch, Stmt, Token};

/// The first word `default` that is the second one of its `case` (IEEE 1800-2017 12.5): in this statement, where none was
/// found before it. One walk over the statement, which takes no memory; the stack is as deep as the statement.
///
/// ```text
/// case (a) 0: ; default: ; default: y = 1; endcase            the second `default`
/// case (a) default: case (b) default: ; endcase endcase       none: one in each `case`
/// ```
#[cycle(defaults)]
pub fn find_second_default(found: &mut Option<Token>, stmt: &Stmt)
    ensures { found.new ≡ spec.stmt_notes stmt.now found.old }
{
    match stmt {
        Stmt::Block { body, .. } => in_statements(found, body.as_slice()),
        Stmt::If { branches, body, .. } => {
            in_branches(found, branches.as_slice());
            find_second_default(found, body.get());
        }
        Stmt::IfElse { branches, last } => {
            in_branches(found, branches.as_slice());
            find_second_default(found, last.get());
        }
        Stmt::Case { arms, .. } => in_arms(found, arms.as_slice()),
        Stmt::For { body, .. } => find_second_default(found, body.get()),
        Stmt::Empty(_) => {}
        Stmt::Assign { .. } => {}
        Stmt::Call { .. } => {}
    }
}

#[cycle(defaults)]
fn in_statements(found: &mut Option<Token>, body: &[Stmt])
    ensures { found.new ≡ spec.in_order (map spec.stmt_notes body.now) found.old }
{
    for stmt in body {
        find_second_default(found, stmt);
    }
}

#[cycle(defaults)]
fn in_branches(found: &mut Option<Token>, branches: &[Branch])
    ensures { found.new ≡ spec.in_order (map spec.branch_notes branches.now) found.old }
{
    for branch in branches {
        find_second_default(found, &branch.body);
    }
}

#[cycle(defaults)]
fn in_arms(found: &mut Option<Token>, arms: &[Arm])
    ensures { found.new ≡ spec.arms_in_order false (map spec.arm_notes arms.now) found.old }
{
    let mut has_default = false;
    for arm in arms {
        has_default = in_arm(found, has_default, arm);
    }
}

/// An arm after others, and whether one of them or it is a `default`.
#[cycle(defaults)]
fn in_arm(found: &mut Option<Token>, has_default: bool, arm: &Arm) -> bool
    ensures found { found.new ≡ spec.arm_in_order has_default (spec.arm_notes arm.now) found.old }
    ensures has_default { result ≡ (has_default || is_some (spec.arm_notes arm.now).word) }
{
    match arm {
        Arm::Labels { body, .. } => {
            find_second_default(found, body.get());
            has_default
        }
        Arm::Default { word, body, .. } => {
            note(found, has_default, *word);
            find_second_default(found, body.get());
            true
        }
    }
}

/// A `default`, which is noted where one stood before it in its `case` and nothing was found before.
fn note(found: &mut Option<Token>, has_default: bool, word: Token)
    ensures { found.new ≡ spec.note_word has_default word found.old }
{
    if has_default && found.is_none() {
        *found = Some(word);
    }
}
