//! Designs as text, and what is told of their models.

use crate::texts::design_of;
use dpi_host::Mode;
use dpi_lib::LibHost;
use model_build::{BuildFault, build};
use plan_graph::Node;
use plan_types::{Built, ValidPlan};
use rtl_pieces::Word;
use std::alloc::Global;
use std::test::Fail;
use vs_base::Origin;

/// A text that grows. What no memory is left for is lost.
#[derive(Drop)]
struct Shown {
    text: Vec<u8>,
}

impl Shown {
    fn put(&mut self, text: &[u8]) {
        let _ = self.text.extend_from_slice(text);
    }

    /// A number below 1000 and a blank.
    fn put_number(&mut self, number: u32) {
        let number = number % 1000;
        if number >= 100 {
            let _ = self.text.push(digit(number / 100));
        }
        if number >= 10 {
            let _ = self.text.push(digit(number / 10));
        }
        let _ = self.text.push(digit(number));
        self.put(b" ");
    }

    fn put_origin(&mut self, at: Origin) {
        self.put_number(at.line);
        self.put_number(at.col);
    }
}

/// The last decimal digit.
fn digit(number: u32) -> u8 {
    b'0' + u8::try_from(number % 10).unwrap_or(0)
}

fn show_fault(fault: &BuildFault, out: &mut Shown) {
    match fault {
        BuildFault::NoMemory(_) => out.put(b"no memory"),
        BuildFault::MultipleDrivers(name, first, second) => {
            out.put(b"two drivers of ");
            out.put(name.as_bytes());
            out.put(b": ");
            out.put_origin(*first);
            out.put_origin(*second);
        }
        BuildFault::UnknownImport(name) => {
            out.put(b"unknown ");
            out.put(name.as_bytes());
        }
        BuildFault::NotByArguments(name) => {
            out.put(b"not by arguments ");
            out.put(name.as_bytes());
        }
        BuildFault::TooMany(_) => out.put(b"too many"),
        BuildFault::Loop(places) => {
            out.put(b"loop ");
            for at in places.as_slice() {
                out.put_origin(*at);
            }
        }
    }
}

/// The lengths of the words, each shadow's with `s` before it.
fn show_words(words: &[Word], out: &mut Shown) {
    out.put(b"words ");
    for word in words {
        if word.shadow {
            out.put(b"s");
        }
        out.put_number(word.len);
    }
}

fn show_node(node: Node, out: &mut Shown) {
    match node {
        Node::Comb(proc) => out.put_number(proc),
        Node::Body(proc) => {
            out.put(b"b");
            out.put_number(proc);
        }
        Node::Commit(proc) => {
            out.put(b"c");
            out.put_number(proc);
        }
    }
}

/// The nodes and what they cost.
fn show_plan(plan: &ValidPlan, out: &mut Shown) {
    for node in plan.nodes.as_slice() {
        show_node(*node, out);
    }
    out.put(b"cost ");
    for cost in plan.graph.costs.as_slice() {
        out.put_number(*cost);
    }
}

fn show_built(built: &Built, out: &mut Shown) {
    show_words(built.layout.words.as_slice(), out);
    out.put(b"settle ");
    show_plan(&built.settle, out);
    out.put(b"clocked ");
    show_plan(&built.clocked, out);
    for deemed in built.deemed.as_slice() {
        out.put(if *deemed { b"safe " } else { b"kept " });
    }
}

/// What is told of the model of a text.
fn model_of(alloc: Global, text: &[u8], mode: Mode) -> Result<Vec<u8>, Fail> {
    let design = design_of(alloc, text)?;
    let host = LibHost::new();
    let mut out = Shown {
        text: Vec::new(alloc),
    };
    match build(alloc, design, mode, &host) {
        Ok(built) => show_built(&built, &mut out),
        Err(fault) => show_fault(&fault, &mut out),
    }
    Ok(out.text)
}

const TABLE: [(&[u8], Mode, &[u8]); 13] = [
    (
        b"module top(input [7:0] a, output [7:0] y); assign y = a + 1; endmodule",
        Mode::Pure,
        b"words 0 8 8 settle 0 cost 2 clocked cost ",
    ),
    (
        b"module top(input [7:0] x, output [8:0] c); assign c[0] = 1; for (genvar i = 0; i < 3; i++) assign c[i+1] = c[i] & x[i]; endmodule",
        Mode::Pure,
        b"words 0 8 1 1 1 1 5 settle 0 1 2 3 cost 1 2 2 2 clocked cost ",
    ),
    (
        b"module top(output a, b); assign a = b; assign b = a; endmodule",
        Mode::Pure,
        b"loop 1 33 1 47 ",
    ),
    (
        b"module top(input a, output [1:0] y); assign y[0] = a; assign y[0] = 1; endmodule",
        Mode::Pure,
        b"two drivers of top.y[0]: 1 45 1 62 ",
    ),
    (
        b"module top(input a, output [1:0] y); assign y[0] = a; assign y[1] = 1; endmodule",
        Mode::Pure,
        b"words 0 1 1 1 settle 0 1 cost 1 1 clocked cost ",
    ),
    (
        b"module top(input [7:0] a); logic [7:0] m [-1:2]; assign m[1] = a; assign m[-1][3:2] = 1; assign m[-1][3] = 1; endmodule",
        Mode::Pure,
        b"two drivers of top.m[-1][3]: 1 74 1 97 ",
    ),
    (
        b"import \"DPI-C\" pure function int vs_popcount(int x); module top(input [7:0] a, b, output [31:0] p, q); assign p = vs_popcount(a); assign q = vs_popcount(b); endmodule",
        Mode::Pure,
        b"words 0 8 8 32 32 settle 0 1 cost 21 21 clocked cost safe ",
    ),
    (
        b"import \"DPI-C\" function int vs_next(); module top(input clk, output [31:0] y, output logic t); assign y = vs_next(); always_ff @(posedge clk) t <= ~t; endmodule",
        Mode::All,
        b"not by arguments vs_next",
    ),
    (
        b"import \"DPI-C\" function int vs_next(); module top(input clk, output [31:0] y, output logic t); assign y = vs_next(); always_ff @(posedge clk) t <= ~t; endmodule",
        Mode::Pure,
        b"words 0 1 32 1 s1 settle 0 cost 21 clocked b1 c1 0 cost 2 1 21 kept ",
    ),
    (
        b"import \"DPI-C\" function int vs_none(); module top(output y); assign y = vs_none(); endmodule",
        Mode::Pure,
        b"unknown vs_none",
    ),
    (
        b"import \"DPI-C\" function int vs_none(); module top(output y); assign y = 1; endmodule",
        Mode::Pure,
        b"words 0 1 settle 0 cost 1 clocked cost kept ",
    ),
    (
        b"module top(input clk, we, input [2:0] ad, input [1:0] be, input [15:0] d, output [15:0] q); logic [15:0] m [0:3]; always_ff @(posedge clk) if (we) begin if (be[0]) m[ad][7:0] <= d[7:0]; if (be[1]) m[ad][15:8] <= d[15:8]; end assign q = m[ad]; endmodule",
        Mode::Pure,
        b"words 0 1 1 3 2 16 16 16 16 16 16 s16 s16 s16 s16 settle 1 cost 2 clocked b0 c0 1 cost 9 4 2 ",
    ),
    (
        b"module top(input [7:0] x, y, output [15:0] d); logic [7:0] a, b, c; assign a = ((x + y) ^ x) + (y & x); assign b = (a + x) ^ y; assign c = (a ^ x) + y; assign d = {b, c}; endmodule",
        Mode::Pure,
        b"words 0 8 8 16 8 8 8 settle 0 1 2 3 cost 5 3 3 1 clocked cost ",
    ),
];

#[test]
fn models_are_those_of_their_texts(rt: HostRuntime) -> Result<(), Fail> {
    for (text, mode, told) in TABLE {
        let found = model_of(rt.alloc(), text, mode)?;
        assert_eq!(rt;
            String::from_utf8(found)
                .unwrap_or(String::new(rt.alloc()))
                .as_str(),
            std::str::from_utf8(told).unwrap_or("")
        );
    }
    Ok(())
}
