ghost use Rattle.std.specs.Prelude.{◌≡◌, IfOk, vec_len};

use super::*;
use std::alloc::Global;
use std::test::Fail;

fn some_numbers(alloc: Global) -> Result<NodeSet, Fail>
    ensures { IfOk result (λ s. vec_len s.words ≡ 4) }
{
    let mut set = NodeSet::new(alloc, 200)?;
    set.insert(130);
    set.insert(5);
    set.insert(70);
    set.insert(71);
    set.remove(71);
    Ok(set)
}

#[test]
fn members_come_in_order(rt: HostRuntime) -> Result<(), Fail> {
    let set = some_numbers(rt.alloc())?;
    assert!(rt; set.first() == Some(5));
    assert!(rt; set.next_after(5) == Some(70));
    assert!(rt; set.next_after(70) == Some(130));
    assert!(rt; set.next_after(130).is_none());
    assert!(rt; set.before(130) == Some(70));
    assert!(rt; set.before(5).is_none());
    assert!(rt; set.has(70) && !set.has(71));
    Ok(())
}

#[test]
fn takes_in_another(rt: HostRuntime) -> Result<(), Fail> {
    let set = some_numbers(rt.alloc())?;
    let mut both = set.copy(rt.alloc())?;
    let mut other = NodeSet::new(rt.alloc(), 200)?;
    other.insert(64);
    both.add_all(&other);
    assert!(rt; both.before(70) == Some(64));
    assert!(rt; set.before(70) == Some(5));
    Ok(())
}
