// The inputs of a design by name, so that an act finds its port in constant time.
ghost use Rattle.std.specs.Prelude.{◌≡◌, ◌<◌, [], length, true, IfOk, OnOk};
ghost use Rattle.std.specs.List.{list_all};
ghost use Rattle.rtl_ir.specs.WithinDesign.{port_fits};
ghost use Rattle.stimulus.specs.Inputs.{place_in, with_name, with_port, IsTable};
ghost use Rattle.stimulus.specs.Stimulus.{stim_port, stim_ports};

use indexmap::IndexMap;
use rtl_ir::{Port, Var};
use std::alloc::{AllocError, Global};
use std::marker::Model;

/// The names of inputs, each with a place among the ports.
#[derive(Drop)]
pub struct Inputs {
    places: IndexMap<Vec<u8>, u32>,
}

impl Model for Inputs {
    ghost use Rattle.std.specs.Prelude.{map};
    ghost use Rattle.stimulus.specs.Inputs.{Entries};

    ghost Value = { Entries };

    ghost view = { λ n. map (λ e. (e.0.items, e.1)) n.places.entries };
}

impl Inputs {
    /// No names.
    pub fn new(alloc: Global) -> Inputs
        ensures { result ≡ [] }
    {
        Inputs {
            places: IndexMap::new(alloc),
        }
    }

    /// The place of a name, if it is there.
    pub fn place(&self, name: &[u8]) -> Option<u32>
        ensures { result ≡ place_in self.now name.now }
    {
        self.places.get(name).copied()
    }

    /// Puts in a name with its place; a name that is there keeps the place that it has.
    fn add(&mut self, alloc: Global, name: &[u8], place: u32) -> Result<(), AllocError>
        ensures { OnOk result (self.new ≡ with_name self.old name.now place) }
    {
        if self.place(name).is_some() {
            return Ok(());
        }
        let Ok(key) = Vec::from_slice(alloc, name) else {
            return Err(AllocError);
        };
        let Ok(_) = self.places.insert(key, place) else {
            return Err(AllocError);
        };
        Ok(())
    }
}

// Puts in a port with its place, if it is an input.
fn add_port(
    inputs: &mut Inputs,
    alloc: Global,
    vars: &[Var],
    port: Port,
    place: u32,
) -> Result<(), AllocError>
    requires { port.var < length vars.now }
    ensures { OnOk result (inputs.new ≡ with_port inputs.old (stim_port vars.now port) place) }
{
    if !port.input {
        return Ok(());
    }
    inputs.add(alloc, vars[port.var as usize].name.as_bytes(), place)
}

/// The names of the inputs among the ports, each with the place of the first input that has it.
///
/// `AllocError`: there was no memory left, or there are 2^32 ports or more.
pub fn inputs_of(alloc: Global, vars: &[Var], ports: &[Port]) -> Result<Inputs, AllocError>
    requires { list_all (port_fits (length vars.now)) ports.now ≡ true }
    ensures { IfOk result (λ inputs. IsTable inputs (stim_ports vars.now ports.now)) }
{
    let mut inputs = Inputs::new(alloc);
    let mut place: u32 = 0;
    let mut rest = ports;
    'ports: while let [port, more @ ..] = rest {
        match add_port(&mut inputs, alloc, vars, *port, place) {
            Ok(()) => rest = more,
            Err(fault) => return Err(fault),
        }
        let Some(next) = place.checked_add(1) else {
            return Err(AllocError);
        };
        place = next;
    }
    Ok(inputs)
}
