ghost use Rattle.std.specs.Prelude.{◌≡◌, IsTrue, true};

use super::*;
use dpi_host::{Answers, Host, NoMemory};
use std::process::Abort;

// The answer of a call by name.
fn ask<H: Host>(rt: &impl Abort, host: &mut H, name: &[u8], args: &[u64]) -> u64 {
    let id = host.find(name);
    assert!(rt; id.is_some(), "{name:?}");
    host.call(id.unwrap_or(0), args)
}

// An import by arguments alone answers the same again, by the law of the trait.
fn answers_again<H: Host>(host: &mut H, id: u32, args: &[u64]) -> bool
    requires { IsTrue (H.by_args (H.fixed host.old) id) }
    ensures { result ≡ true }
{
    let first = host.call(id, args);
    let second = host.call(id, args);
    first == second
}

#[test]
fn calls_answer_as_the_table_says(rt: HostRuntime) {
    let mut library = LibHost::new();
    let (none, one): (&[u64], &[u64]) = (&[], &[1]);
    for (name, args, want) in [
        (b"vs_popcount".as_slice(), [0xff].as_slice(), 8),
        (b"vs_popcount", &[u64::MAX], 64),
        (b"vs_parity", &[7], 1),
        (b"vs_parity", &[3], 0),
        (b"vs_reverse", one, 0x8000_0000),
        (b"vs_reverse", &[0xffff_ffff_0000_00f0], 0x0f00_0000),
        (b"vs_mix", &[1, 0], 0x9e37_79b9_e17d_05ac),
        (b"vs_max", &[3, 5], 5),
        (b"vs_max", &[3], 3),
        (b"vs_min", &[3, 5], 3),
        (b"vs_min", &[3, 5, 1], 3),
        (b"vs_rotl", &[0x8000_0001, 1], 3),
        (b"vs_rotl", &[0x1234_5678, 36], 0x2345_6781),
        (b"vs_rotl", &[0xff_1234_5678, 32], 0x1234_5678),
        (b"vs_next", none, 1),
        (b"vs_next", none, 2),
        (b"vs_put", &[5], 0),
        (b"vs_put", &[6], 0),
        (b"vs_sum", none, 0xb),
        (b"vs_poke", &[0x11, 7], 0),
        (b"vs_peek", one, 7),
        (b"vs_poke", &[1, 9], 7),
        (b"vs_peek", &[0x21], 9),
    ] {
        assert_eq!(rt; ask(&rt, &mut library, name, args), want, "{name:?}");
    }
    assert_eq!(rt; library.find(b"vs_nexts"), None);
    assert_eq!(rt; library.find(b"vs_nex"), None);
}

#[test]
fn seven_are_shared(rt: HostRuntime) -> Result<(), NoMemory> {
    let mut library = LibHost::new();
    let shared = library.share(rt.alloc())?;
    for id in 0..12 {
        assert_eq!(rt; library.by_args(id), id < 7, "{id}");
        if library.by_args(id) {
            let args = [0x8000_0001_8000_0007, 3];
            assert_eq!(rt; shared.answer(id, &args), library.call(id, &args), "{id}");
            assert!(rt; answers_again(&mut library, id, &args));
        }
    }
    Ok(())
}
