//! Statements (IEEE 1800-2017 10.4, 12.4, 12.5). The code of each leaves the stack as deep as it was.
ghost use Rattle.std.specs.Prelude.{◌≡◌, ◌≤◌, ◌<◌, ◌+◌, ◌∷◌, length, slice_index, OnOk, IfOk};

use crate::expression::{call, expression};
use crate::fault::CodeFault;
use crate::here::Here;
use crate::kind::{Kind, common_of, kind_of};
use crate::tail::Tail;
use crate::write::write;
use rtl_ir::{Arm, Branch, Expr, Stmt};
use std::alloc::Global;
use task_eval::Two;

/// Runs statements, one after the other.
#[cycle(statement)]
pub(crate) fn statements(
    body: &[Stmt],
    alloc: Global,
    here: &Here<'_>,
    out: &mut Tail,
) -> Result<(), CodeFault>
    requires limits { out.old.held.limits ≡ here.now.limits }
    requires below { here.now.limits.to ≤ here.now.limits.words }
    ensures depth { OnOk result (out.new.depth ≡ out.old.depth) }
    ensures held { OnOk result (out.new.held ≡ out.old.held) }
{
    for number in (0..body.len()).rev() {
        statement(&body[number], alloc, here, out)?;
    }
    Ok(())
}

/// Runs a statement. A process keeps all its writes, or none of them.
#[cycle(statement)]
fn statement(stmt: &Stmt, alloc: Global, here: &Here<'_>, out: &mut Tail) -> Result<(), CodeFault>
    requires limits { out.old.held.limits ≡ here.now.limits }
    requires below { here.now.limits.to ≤ here.now.limits.words }
    ensures depth { OnOk result (out.new.depth ≡ out.old.depth) }
    ensures held { OnOk result (out.new.held ≡ out.old.held) }
{
    match stmt {
        Stmt::Write(place, value) => {
            if here.clocked {
                return Err(CodeFault::DoesNotFit);
            }
            write(alloc, place, value, here, out)
        }
        Stmt::Later(place, value) => {
            if !here.clocked {
                return Err(CodeFault::DoesNotFit);
            }
            write(alloc, place, value, here, out)
        }
        Stmt::If(branches, rest) => {
            out.open()?;
            statements(rest.as_slice(), alloc, here, out)?;
            all_branches(branches.as_slice(), alloc, here, out)?;
            out.close();
            Ok(())
        }
        Stmt::Case(subject, arms, rest) => {
            let kind = labels_kind(subject, arms.as_slice());
            begin_case(out)?;
            statements(rest.as_slice(), alloc, here, out)?;
            all_arms(arms.as_slice(), &kind, alloc, here, out)?;
            out.close();
            push_subject(subject, &kind, here, out)
        }
        Stmt::Do(called) => {
            out.drop_top()?;
            call(called, here, out)
        }
    }
}

/// Runs the first branch whose test holds, and goes on at the mark; where none holds, at what follows.
#[cycle(statement)]
fn all_branches(
    branches: &[Branch],
    alloc: Global,
    here: &Here<'_>,
    out: &mut Tail,
) -> Result<(), CodeFault>
    requires limits { out.old.held.limits ≡ here.now.limits }
    requires below { here.now.limits.to ≤ here.now.limits.words }
    requires some { 1 ≤ length out.old.held.marks }
    requires mark { slice_index out.old.held.marks 0 ≡ out.old.depth }
    ensures depth { OnOk result (out.new.depth ≡ out.old.depth) }
    ensures held { OnOk result (out.new.held ≡ out.old.held) }
{
    for number in (0..branches.len()).rev() {
        branch(&branches[number], alloc, here, out)?;
    }
    Ok(())
}

/// Runs a branch and goes on at the mark where its test holds.
#[cycle(statement)]
fn branch(branch: &Branch, alloc: Global, here: &Here<'_>, out: &mut Tail) -> Result<(), CodeFault>
    requires limits { out.old.held.limits ≡ here.now.limits }
    requires below { here.now.limits.to ≤ here.now.limits.words }
    requires some { 1 ≤ length out.old.held.marks }
    requires mark { slice_index out.old.held.marks 0 ≡ out.old.depth }
    ensures depth { OnOk result (out.new.depth ≡ out.old.depth) }
    ensures held { OnOk result (out.new.held ≡ out.old.held) }
{
    out.open()?;
    out.skip_to(1)?;
    statements(branch.body.as_slice(), alloc, here, out)?;
    test(&branch.test, here, out)?;
    out.close();
    Ok(())
}

/// Goes on at the mark where a test does not hold.
fn test(test: &Expr, here: &Here<'_>, out: &mut Tail) -> Result<(), CodeFault>
    requires limits { out.old.held.limits ≡ here.now.limits }
    requires some { 1 ≤ length out.old.held.marks }
    requires mark { slice_index out.old.held.marks 0 ≡ out.old.depth }
    ensures depth { OnOk result (out.new.depth ≡ out.old.depth) }
    ensures held { OnOk result (out.new.held ≡ out.old.held) }
{
    out.skip_if_zero(0)?;
    expression(test, here, out)
}

/// Takes the subject of a `case` away, which stands on the stack until its end, and opens a mark there.
fn begin_case(out: &mut Tail) -> Result<(), CodeFault>
    ensures depth { OnOk result (out.new.depth ≡ out.old.depth + 1) }
    ensures held { OnOk result (out.new.held ≡ record out.old.held { marks = (out.old.depth + 1) ∷ out.old.held.marks }) }
    ensures limits { OnOk result (out.new.held.limits ≡ out.old.held.limits) }
{
    out.drop_top()?;
    out.open()
}

/// Pushes the subject of a `case`.
fn push_subject(
    subject: &Expr,
    kind: &Kind,
    here: &Here<'_>,
    out: &mut Tail,
) -> Result<(), CodeFault>
    requires limits { out.old.held.limits ≡ here.now.limits }
    requires deep { 1 ≤ out.old.depth }
    ensures depth { OnOk result (out.new.depth + 1 ≡ out.old.depth) }
    ensures held { OnOk result (out.new.held ≡ out.old.held) }
{
    out.extend(subject.width.bits(), kind.width.bits(), kind.signed)?;
    expression(subject, here, out)
}

/// The type at which the subject of a `case` and all labels are compared.
fn labels_kind(subject: &Expr, arms: &[Arm]) -> Kind {
    let mut kind = kind_of(subject);
    for arm in arms {
        kind = common_of(&kind, arm.labels.as_slice());
    }
    kind
}

/// Runs the first arm that has an equal label, and goes on at the mark; where none has, at what follows.
#[cycle(statement)]
fn all_arms(
    arms: &[Arm],
    kind: &Kind,
    alloc: Global,
    here: &Here<'_>,
    out: &mut Tail,
) -> Result<(), CodeFault>
    requires limits { out.old.held.limits ≡ here.now.limits }
    requires below { here.now.limits.to ≤ here.now.limits.words }
    requires deep { 1 ≤ out.old.depth }
    requires some { 1 ≤ length out.old.held.marks }
    requires mark { slice_index out.old.held.marks 0 ≡ out.old.depth }
    ensures depth { OnOk result (out.new.depth ≡ out.old.depth) }
    ensures held { OnOk result (out.new.held ≡ out.old.held) }
{
    for number in (0..arms.len()).rev() {
        arm(&arms[number], kind, alloc, here, out)?;
    }
    Ok(())
}

/// Runs an arm and goes on at the mark where a label is equal to the subject, which stands on top.
#[cycle(statement)]
fn arm(
    arm: &Arm,
    kind: &Kind,
    alloc: Global,
    here: &Here<'_>,
    out: &mut Tail,
) -> Result<(), CodeFault>
    requires limits { out.old.held.limits ≡ here.now.limits }
    requires below { here.now.limits.to ≤ here.now.limits.words }
    requires deep { 1 ≤ out.old.depth }
    requires some { 1 ≤ length out.old.held.marks }
    requires mark { slice_index out.old.held.marks 0 ≡ out.old.depth }
    ensures depth { OnOk result (out.new.depth ≡ out.old.depth) }
    ensures held { OnOk result (out.new.held ≡ out.old.held) }
{
    out.open()?;
    out.skip_to(1)?;
    statements(arm.body.as_slice(), alloc, here, out)?;
    all_labels(arm.labels.as_slice(), kind, here, out)?;
    out.close();
    Ok(())
}

/// Goes on at the mark where no label is equal to the subject, which stands on top.
fn all_labels(
    labels: &[Expr],
    kind: &Kind,
    here: &Here<'_>,
    out: &mut Tail,
) -> Result<(), CodeFault>
    requires limits { out.old.held.limits ≡ here.now.limits }
    requires deep { 1 ≤ out.old.depth }
    requires some { 1 ≤ length out.old.held.marks }
    requires mark { slice_index out.old.held.marks 0 ≡ out.old.depth }
    ensures depth { OnOk result (out.new.depth ≡ out.old.depth) }
    ensures held { OnOk result (out.new.held ≡ out.old.held) }
{
    let [more @ .., last] = labels else {
        return out.skip_to(0);
    };
    out.open()?;
    out.skip_if_zero(1)?;
    label(last, kind, here, out)?;
    for number in (0..more.len()).rev() {
        out.skip_if_true(0)?;
        label(&more[number], kind, here, out)?;
    }
    out.close();
    Ok(())
}

/// Pushes whether a label is equal to the subject, which stands on top.
fn label(label: &Expr, kind: &Kind, here: &Here<'_>, out: &mut Tail) -> Result<(), CodeFault>
    requires limits { out.old.held.limits ≡ here.now.limits }
    requires deep { 2 ≤ out.old.depth }
    ensures depth { OnOk result (out.new.depth + 1 ≡ out.old.depth) }
    ensures held { OnOk result (out.new.held ≡ out.old.held) }
{
    out.two(Two::Eq, kind.width, kind.signed)?;
    out.extend(label.width.bits(), kind.width.bits(), kind.signed)?;
    expression(label, here, out)?;
    pick_top(out)
}

/// Pushes the top once more.
fn pick_top(out: &mut Tail) -> Result<(), CodeFault>
    requires deep { 2 ≤ out.old.depth }
    ensures depth { OnOk result (out.new.depth + 1 ≡ out.old.depth) }
    ensures held { OnOk result (out.new.held ≡ out.old.held) }
{
    out.pick(out.depth() - 2)
}
