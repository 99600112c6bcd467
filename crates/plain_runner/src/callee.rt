//! A host, as an eval calls it.
ghost use Rattle.std.specs.Prelude.{◌≡◌, ℕ, List};
ghost use Rattle.dpi_host.specs.HostMachine.{Answer, After};

use dpi_host::Host;

// What an eval calls. It asks for less than a host does, since nothing of it goes to another thread.
pub(crate) trait Callee {
    ghost fixed: { Self → List (List ℕ) };

    ghost state: { Self → List ℕ };

    ghost answer: { Answer };

    ghost after: { After };

    fn call(&mut self, id: u32, args: &[u64]) -> u64
        ensures answer { result ≡ answer (fixed self.old) (state self.old) id args.now }
        ensures state { state self.new ≡ after (fixed self.old) (state self.old) id args.now }
        ensures fixed { fixed self.new ≡ fixed self.old };
}

// A host that an eval calls.
#[derive(Drop)]
pub(crate) struct Called<H> {
    pub(crate) host: H,
}

impl<H: Host> Callee for Called<H> {
    ghost fixed = { λ c. H.fixed c.host };

    ghost state = { λ c. H.state c.host };

    ghost answer = { H.answer };

    ghost after = { H.after };

    fn call(&mut self, id: u32, args: &[u64]) -> u64 {
        self.host.call(id, args)
    }
}
