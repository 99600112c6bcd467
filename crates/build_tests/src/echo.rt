//! A host whose imports give their first argument back.
ghost use Rattle.std.specs.Prelude.{[], Some, true, slice_index, refl};

use dpi_host::{Answers, Host, NoMemory, argument};
use std::alloc::Global;

#[derive(Clone, Copy)]
pub struct Echo;

impl Answers for Echo {
    ghost by_args = { λ shared id. true };

    ghost answer = { λ shared id args. slice_index args 0 };

    fn answer(&self, _id: u32, args: &[u64]) -> u64 {
        argument(args, 0)
    }
}

impl Host for Echo {
    type Shared = Echo;

    ghost fixed = { λ h. [] };

    ghost state = { λ h. [] };

    ghost id_of = { λ fixed name. Some 0 };

    ghost answer = { λ fixed state id args. slice_index args 0 };

    ghost after = { λ fixed state id args. state };

    ghost by_args = { λ fixed id. true };

    fn find(&self, _name: &[u8]) -> Option<u32> {
        Some(0)
    }

    fn by_args(&self, _id: u32) -> bool {
        true
    }

    fn call(&mut self, _id: u32, args: &[u64]) -> u64 {
        argument(args, 0)
    }

    fn share(&self, _alloc: Global) -> Result<Echo, NoMemory> {
        Ok(Echo)
    }

    ghost lawful = { λ fixed id. (λ holds. record { ignores = λ s t args. refl; keeps = λ s args. refl }, λ is. refl) };
}
