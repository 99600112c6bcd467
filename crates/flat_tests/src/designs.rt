//! Designs as text, one line a process.

use rtl_flat::flatten;
use rtl_ir::{
    Arm, BinaryOp, Branch, Call, Choice, Design, Expr, ExprNode, Place, Proc, ProcKind, Select,
    Stmt, Tables, Target, UnaryOp,
};
use std::alloc::Global;
use std::test::Fail;
use sv_elab::elaborate;
use sv_lex::lex;
use sv_parse::parse;
use sv_tree::{Names, SourceTree};
use vs_base::Bits;

/// More bytes than any text here has.
const MOST: usize = 1_000_000;

/// A text that grows. What no memory is left for is lost.
#[derive(Drop)]
struct Shown {
    text: Vec<u8>,
}

impl Shown {
    fn put(&mut self, text: &[u8]) {
        let _ = self.text.extend_from_slice(text);
    }

    fn put_byte(&mut self, byte: u8) {
        let _ = self.text.push(byte);
    }

    /// A number below 100.
    fn put_number(&mut self, number: u32) {
        let number = number % 100;
        if number >= 10 {
            self.put_byte(digit(number / 10));
        }
        self.put_byte(digit(number % 10));
    }

    /// A value in hexadecimal, without the zeros before it.
    fn put_value(&mut self, value: Bits) {
        let mut some = false;
        for k in 0..32 {
            let glyph = value.hex_digit(31 - k);
            some = some || glyph != b'0' || k == 31;
            if some {
                self.put_byte(glyph);
            }
        }
    }
}

/// A decimal digit.
fn digit(number: u32) -> u8 {
    b'0' + u8::try_from(number % 10).unwrap_or(0)
}

/// An expression after its width and sign.
#[cycle(show)]
fn show(expr: &Expr, design: Tables<'_>, out: &mut Shown) {
    out.put_number(expr.width.bits());
    out.put_byte(if expr.signed { b's' } else { b'u' });
    match &expr.node {
        ExprNode::Const(value) => {
            out.put(b"'");
            out.put_value(*value);
        }
        ExprNode::Read(target) => show_target(target, design, out),
        ExprNode::Prefix(operators, operand) => {
            for operator in operators.as_slice() {
                out.put(unary(*operator));
            }
            show(operand.get(), design, out);
        }
        ExprNode::Level(operands, operators) => {
            out.put(b"(");
            show_level(operands.as_slice(), operators.as_slice(), design, out);
            out.put(b")");
        }
        ExprNode::Choose(choices, last) => {
            out.put(b"(");
            show_choices(choices.as_slice(), design, out);
            show(last.get(), design, out);
            out.put(b")");
        }
        ExprNode::Concat(parts) => {
            out.put(b"{");
            show_all(parts.as_slice(), design, out);
            out.put(b"}");
        }
        ExprNode::Repeat(count, parts) => {
            out.put(b"{");
            out.put_number(*count);
            out.put(b"{");
            show_all(parts.as_slice(), design, out);
            out.put(b"}}");
        }
        ExprNode::Call(call) => show_call(call, design, out),
        ExprNode::Sign(operand) => {
            out.put(b"$(");
            show(operand.get(), design, out);
            out.put(b")");
        }
    }
}

#[cycle(show)]
fn show_all(exprs: &[Expr], design: Tables<'_>, out: &mut Shown) {
    let mut first = true;
    for expr in exprs {
        if !first {
            out.put(b",");
        }
        first = false;
        show(expr, design, out);
    }
}

#[cycle(show)]
fn show_level(operands: &[Expr], operators: &[BinaryOp], design: Tables<'_>, out: &mut Shown) {
    for (k, operand) in operands.iter().enumerate() {
        if k > 0 {
            match operators.get(k - 1) {
                Some(operator) => out.put(binary(*operator)),
                None => out.put(b"?"),
            }
        }
        show(operand, design, out);
    }
}

#[cycle(show)]
fn show_choices(choices: &[Choice], design: Tables<'_>, out: &mut Shown) {
    for choice in choices {
        show(&choice.test, design, out);
        out.put(b"?");
        show(&choice.value, design, out);
        out.put(b":");
    }
}

#[cycle(show)]
fn show_call(call: &Call, design: Tables<'_>, out: &mut Shown) {
    match design.imports.get(call.import as usize) {
        Some(import) => out.put(import.name.as_bytes()),
        None => out.put(b"?"),
    }
    out.put(b"(");
    show_all(call.args.as_slice(), design, out);
    out.put(b")");
}

/// A name, `*` where the whole of it counts though it has a select, and the selects.
#[cycle(show)]
fn show_target(target: &Target, design: Tables<'_>, out: &mut Shown) {
    if target.mem {
        out.put(b"m:");
        match design.mems.get(target.item as usize) {
            Some(mem) => out.put(mem.path.as_bytes()),
            None => out.put(b"?"),
        }
    } else {
        match design.vars.get(target.item as usize) {
            Some(var) => out.put(var.name.as_bytes()),
            None => out.put(b"?"),
        }
    }
    if target.whole && (target.mem || target.select.is_some()) {
        out.put(b"*");
    }
    if let Some(element) = &target.element {
        out.put(b"[");
        show(element.get(), design, out);
        out.put(b"]");
    }
    if let Some(select) = &target.select {
        out.put(b"[");
        show(select.at.get(), design, out);
        out.put(if select.down { b"-:" } else { b"+:" });
        out.put_number(select.width.bits());
        out.put(b"]");
    }
}

fn unary(operator: UnaryOp) -> &'static [u8] {
    match operator {
        UnaryOp::Plus => b"+",
        UnaryOp::Minus => b"-",
        UnaryOp::Not => b"!",
        UnaryOp::Invert => b"~",
        UnaryOp::And => b"&",
        UnaryOp::Nand => b"~&",
        UnaryOp::Or => b"|",
        UnaryOp::Nor => b"~|",
        UnaryOp::Xor => b"^",
        UnaryOp::Xnor => b"~^",
    }
}

fn binary(operator: BinaryOp) -> &'static [u8] {
    match operator {
        BinaryOp::Mul => b"*",
        BinaryOp::Div => b"/",
        BinaryOp::Rem => b"%",
        BinaryOp::Add => b"+",
        BinaryOp::Sub => b"-",
        BinaryOp::Shl => b"<<",
        BinaryOp::Shr => b">>",
        BinaryOp::AShl => b"<<<",
        BinaryOp::AShr => b">>>",
        BinaryOp::Lt => b"<",
        BinaryOp::Le => b"<=",
        BinaryOp::Gt => b">",
        BinaryOp::Ge => b">=",
        BinaryOp::Eq => b"==",
        BinaryOp::Ne => b"!=",
        BinaryOp::And => b"&",
        BinaryOp::Xor => b"^",
        BinaryOp::Xnor => b"~^",
        BinaryOp::Or => b"|",
        BinaryOp::LogAnd => b"&&",
        BinaryOp::LogOr => b"||",
    }
}

fn show_place(place: &Place, design: Tables<'_>, out: &mut Shown) {
    let mut first = true;
    for part in place.parts.as_slice() {
        if !first {
            out.put(b",");
        }
        first = false;
        show_target(part, design, out);
    }
}

#[cycle(show_stmt)]
fn show_stmt(stmt: &Stmt, design: Tables<'_>, out: &mut Shown) {
    match stmt {
        Stmt::Write(place, value) => {
            show_place(place, design, out);
            out.put(b"=");
            show(value, design, out);
            out.put(b";");
        }
        Stmt::Later(place, value) => {
            show_place(place, design, out);
            out.put(b"<=");
            show(value, design, out);
            out.put(b";");
        }
        Stmt::If(branches, rest) => {
            show_branches(branches.as_slice(), design, out);
            out.put(b"else{");
            show_stmts(rest.as_slice(), design, out);
            out.put(b"}");
        }
        Stmt::Case(subject, arms, rest) => {
            out.put(b"case(");
            show(subject, design, out);
            out.put(b"){");
            show_arms(arms.as_slice(), design, out);
            out.put(b"default:");
            show_stmts(rest.as_slice(), design, out);
            out.put(b"}");
        }
        Stmt::Do(call) => {
            show_call(call, design, out);
            out.put(b";");
        }
    }
}

#[cycle(show_stmt)]
fn show_stmts(stmts: &[Stmt], design: Tables<'_>, out: &mut Shown) {
    for stmt in stmts {
        show_stmt(stmt, design, out);
    }
}

#[cycle(show_stmt)]
fn show_branches(branches: &[Branch], design: Tables<'_>, out: &mut Shown) {
    for branch in branches {
        out.put(b"if(");
        show(&branch.test, design, out);
        out.put(b"){");
        show_stmts(branch.body.as_slice(), design, out);
        out.put(b"}");
    }
}

#[cycle(show_stmt)]
fn show_arms(arms: &[Arm], design: Tables<'_>, out: &mut Shown) {
    for arm in arms {
        show_all(arm.labels.as_slice(), design, out);
        out.put(b":");
        show_stmts(arm.body.as_slice(), design, out);
    }
}

/// The processes of a design, with a bar after each.
fn show_design(design: &Design, out: &mut Shown) {
    let tables = design.tables();
    for process in design.procs.as_slice() {
        if let ProcKind::Clocked(events) = &process.kind {
            for event in events.as_slice() {
                out.put(if event.rising { b"+" } else { b"-" });
                match tables.vars.get(event.var as usize) {
                    Some(var) => out.put(var.name.as_bytes()),
                    None => out.put(b"?"),
                }
                out.put(b" ");
            }
        }
        show_stmts(process.body.as_slice(), tables, out);
        out.put(b"|");
    }
}

/// The design of a text.
fn design_of(alloc: Global, text: &[u8]) -> Result<Design, Fail> {
    if text.len() > MOST {
        return Err(Fail::from("long"));
    }
    let mut names = Names::new(alloc)?;
    let tokens = lex(alloc, 0, text, &mut names)?;
    if tokens.len() > MOST {
        return Err(Fail::from("long"));
    }
    let tree = parse(alloc, tokens.as_slice(), &names)?;
    design_in(alloc, &tree, &names)
}

/// The design of a tree.
fn design_in(alloc: Global, tree: &SourceTree, names: &Names) -> Result<Design, Fail> {
    let scopes = elaborate(alloc, tree, names, None)?;
    Ok(flatten(alloc, tree, names, &scopes)?)
}

/// The processes of a text.
fn processes_of(alloc: Global, text: &[u8]) -> Result<Vec<u8>, Fail> {
    let design = design_of(alloc, text)?;
    let mut out = Shown {
        text: Vec::new(alloc),
    };
    show_design(&design, &mut out);
    Ok(out.text)
}

/// Texts and their processes.
const TABLE: [(&[u8], &[u8]); 25] = [
    (
        b"module top(input [7:0] a, b, output [7:0] y); assign y = (a + b) >> 1; endmodule",
        b"y=8u(8u(8ua+8ub)>>32s'1);|",
    ),
    (
        b"module top(input [7:0] a, b, output [7:0] z); assign z = ({1'b0, a} + b) >> 1; endmodule",
        b"z=9u(9u(9u{1u'0,8ua}+9ub)>>32s'1);|",
    ),
    (
        b"module top(input [7:0] a, input [15:0] c, output y); assign y = a < c; endmodule",
        b"y=1u(16ua<16uc);|",
    ),
    (
        b"module top(output y); assign y = 3 > 2 > 1; endmodule",
        b"y=1u(32s'3>32s'2>32u'1);|",
    ),
    (
        b"module top(input signed [7:0] s, output [15:0] x, y); assign x = s >>> 1; assign y = (s >>> 1) + 16'd1; endmodule",
        b"x=16s(16ss>>>32s'1);|y=16u(16u(16us>>>32s'1)+16u'1);|",
    ),
    (
        b"module top(input [7:0] a, output y, output [7:0] z); assign y = -&~a; assign z = ~-a; endmodule",
        b"y=1u-&~8ua;|z=8u~-8ua;|",
    ),
    (
        b"module top(output [7:0] a, b, c); assign a = '1; assign b = {'1}; assign c = 8'hff == '1; endmodule",
        b"a=8u'ff;|b=8u{1u'1};|c=8u(8u'ff==8u'ff);|",
    ),
    (
        b"module top(input a, b, input [3:0] c, output [7:0] y); assign y = a ? 4'd1 : b ? c : 6'd3; endmodule",
        b"y=8u(1ua?8u'1:1ub?8uc:8u'3);|",
    ),
    (
        b"module top(input [3:0] a, output [15:0] y, output signed [7:0] z); assign y = {2{a, 1'b1}}; assign z = $signed(a) + $clog2(9); endmodule",
        b"y=16u{2{4ua,1u'1}};|z=32s(32s$(4ua)+32s'4);|",
    ),
    (
        b"module top(input a, b, output y); assign y = a && b || !a; endmodule",
        b"y=1u(1u(1ua&&1ub)||1u!1ua);|",
    ),
    (
        b"module top(input [15:0] d, input [3:0] i, output [3:0] x, y, z, output w); assign x = d[7:4]; assign y = d[i +: 4]; assign z = d[i -: 4]; assign w = d[9]; endmodule",
        b"x=4ud[32s'4+:4];|y=4ud*[4ui+:4];|z=4ud*[4ui-:4];|w=1ud[32s'9+:1];|",
    ),
    (
        b"module top(input [1:0] i, output [3:0] x, output y, z); logic [3:0] m [0:3]; assign x = m[i]; assign y = m[2][1]; assign z = m[2][i]; endmodule",
        b"x=4um:top.m*[2ui];|y=1um:top.m[32s'2][32s'1+:1];|z=1um:top.m*[32s'2][2ui+:1];|",
    ),
    (
        b"module top(output logic p, q, input [15:0] s); always_comb case (s[3:0]) 1: p = 1; 16'd2, 3: begin p = 0; q = 1; end default: q = 0; endcase endmodule",
        b"case(32us[32s'0+:4]){32u'1:p=32s'1;32u'2,32u'3:p=32s'0;q=32s'1;default:q=32s'0;}|",
    ),
    (
        b"module top(input [7:0] a, output logic [3:0] n); always_comb begin n = 0; for (int i = 0; i < 2; i++) n = n + a[i]; end endmodule",
        b"n=32s'0;n=4u(4un+4ua*[32s'0+:1]);n=4u(4un+4ua*[32s'1+:1]);|",
    ),
    (
        b"module top(input a, b, c, output logic [1:0] y); always_comb if (a) y = 0; else if (b) y = 1; else begin y = 2; if (c) y = 3; end endmodule",
        b"if(1ua){y=32s'0;}if(1ub){y=32s'1;}else{y=32s'2;if(1uc){y=32s'3;}else{}}|",
    ),
    (
        b"module top(input clk, r, output logic [3:0] p, q); always_ff @(posedge clk or negedge r) begin {p, q[0]} <= 5'd1; q[3:1] <= p; end endmodule",
        b"+clk -r p,q[32s'0+:1]<=5u'1;q[32s'1+:3]<=4up;|",
    ),
    (
        b"module c(input [3:0] i, output [3:0] o); assign o = i + 1; endmodule module top(input [1:0] a, output [7:0] y, z); wire [2:0] i = a; c u(a, y); c v(.i, .o(z[3:0])); endmodule",
        b"i=3ua;|i=4ua;|y=8uo;|o=32u(32ui+32u'1);|i=4ui;|z[32s'0+:4]=4uo;|o=32u(32ui+32u'1);|",
    ),
    (
        b"module c #(parameter N = 2, M = N + 1) (output [N-1:0] o); localparam K = M; assign o = K + N; endmodule module top(output [7:0] y); c #(.N(5)) u(y); endmodule",
        b"y=8uo;|o=32s(32s'6+32s'5);|",
    ),
    (
        b"module top(input [3:0] x, output [4:0] c); assign c[0] = 1; for (genvar i = 0; i < 2; i++) begin if (i == 1) assign c[i+1] = c[i]; else wire w = x[i]; end endmodule",
        b"c[32s'0+:1]=32s'1;|w=1ux[32s'0+:1];|c[32s'2+:1]=1uc[32s'1+:1];|",
    ),
    (
        b"module top(output [3:0] y); localparam A = 1; if (1) begin wire [3:0] z = A; localparam A = 2; assign y = A; end endmodule",
        b"z=32s'1;|y=32s'2;|",
    ),
    (
        b"import \"DPI-C\" function void put(byte a); import \"DPI-C\" pure sum = function int add(int a, shortint unsigned b); module top(input [7:0] a, output [31:0] y); assign y = add(a, a + 1); always_comb put(a); endmodule",
        b"y=32ssum(32ua,32u(32ua+32u'1));|put(8ua);|",
    ),
    (
        b"module a1(output [7:0] y); import \"DPI-C\" x1 = function byte f(); assign y = f(); endmodule module b1(output [7:0] y); import \"DPI-C\" x2 = function byte f(); assign y = f(); endmodule module top(output [7:0] p, q); a1 u(p); b1 v(q); endmodule",
        b"p=8uy;|y=8sx1();|q=8uy;|y=8sx2();|",
    ),
    (
        b"module top(input [7:0] a, b, c, output [7:0] y); assign y = a - b - c * 2 % 3; endmodule",
        b"y=32u(32ua-32ub-32u(32uc*32u'2%32u'3));|",
    ),
    (
        b"module top(output logic [1:0] y); always_comb for (int i = 3; i > 0; i -= 2) y[i >> 1] = 1; endmodule",
        b"y*[32s(32s'3>>32s'1)+:1]=32s'1;y*[32s(32s'1>>32s'1)+:1]=32s'1;|",
    ),
    (
        b"module top(input [7:0] a, output logic [7:0] y); always_comb for (int i = 0; i < 2; i++) for (int j = 0; j < 2; j++) y[i * 2 + j] = a[j]; endmodule",
        b"y*[32s(32s(32s'0*32s'2)+32s'0)+:1]=1ua*[32s'0+:1];y*[32s(32s(32s'0*32s'2)+32s'1)+:1]=1ua*[32s'1+:1];y*[32s(32s(32s'1*32s'2)+32s'0)+:1]=1ua*[32s'0+:1];y*[32s(32s(32s'1*32s'2)+32s'1)+:1]=1ua*[32s'1+:1];|",
    ),
];

/// A queue with its control, and a top that has two of them.
const FIFO: &[u8] = b"import \"DPI-C\" pure function int vs_popcount(int x);
module fifo #(parameter W = 8, parameter D = 16) (
  input logic clk, rst_n, push, pop, input logic [W-1:0] din,
  output logic [W-1:0] dout, output logic full, empty);
  localparam A = $clog2(D);
  logic [W-1:0] mem [0:D-1];
  logic [A:0] wp, rp;
  assign empty = wp == rp;
  assign full = (wp[A] != rp[A]) && (wp[A-1:0] == rp[A-1:0]);
  assign dout = mem[rp[A-1:0]];
  always_ff @(posedge clk or negedge rst_n)
    if (!rst_n) begin wp <= 0; rp <= 0; end
    else begin
      if (push && !full) begin mem[wp[A-1:0]] <= din; wp <= wp + 1; end
      if (pop && !empty) rp <= rp + 1;
    end
endmodule
module top(input logic clk, rst_n, push, pop, input logic [7:0] din,
  output logic [7:0] dout, output logic [31:0] ones,
  output logic [7:0] gray, output logic full, empty);
  logic [7:0] mid;
  logic f1, e0, mv;
  assign mv = !e0 && !f1;
  fifo #(.W(8)) u0 (.clk(clk), .rst_n(rst_n), .push(push), .pop(mv), .din(din),
    .dout(mid), .full(full), .empty(e0));
  fifo #(.W(8), .D(16)) u1 (.clk, .rst_n, .push(mv), .pop, .din(mid),
    .dout(dout), .full(f1), .empty(empty));
  assign ones = vs_popcount(dout);
  for (genvar i = 0; i < 7; i++) begin : g
    assign gray[i] = dout[i] ^ dout[i+1];
  end
  assign gray[7] = dout[7];
endmodule
";

/// The variables of a design: the path, the name, the width, the sign, the index of the lowest bit and the initial value.
fn show_vars(design: &Design, out: &mut Shown) {
    for var in design.vars.as_slice() {
        out.put(var.path.as_bytes());
        out.put(b".");
        out.put(var.name.as_bytes());
        out.put(b" ");
        out.put_number(var.width);
        out.put(if var.signed { b"s" } else { b"u" });
        out.put_number(var.lsb);
        out.put(b"=");
        out.put_value(var.init);
        out.put(b" ");
    }
}

/// A text with variables in two scopes and a memory.
const VARIABLES: &[u8] =
    b"module top(input signed [7:4] a, output y); logic [3:0] p = 5, q = -1; wire w = 1; byte m [-1:2]; if (1) begin : g logic [9:8] z = 2; end logic t; endmodule";

/// How many clocked processes a design has.
fn clocked(procs: &[Proc]) -> usize {
    let mut count: usize = 0;
    for process in procs {
        if let ProcKind::Clocked(_) = &process.kind {
            count = count.saturating_add(1);
        }
    }
    count
}

#[test]
fn flattens_texts(rt: HostRuntime) -> Result<(), Fail> {
    for (text, want) in TABLE {
        let got = processes_of(rt.alloc(), text)?;
        assert_eq!(rt; got.as_slice(), want);
    }
    Ok(())
}

#[test]
fn flattens_the_queue(rt: HostRuntime) -> Result<(), Fail> {
    let design = design_of(rt.alloc(), FIFO)?;
    assert_eq!(rt; design.vars.len(), 34);
    assert_eq!(rt; design.mems.len(), 2);
    assert_eq!(rt; design.procs.len(), 34);
    assert_eq!(rt; clocked(design.procs.as_slice()), 2);
    assert_eq!(rt; design.imports.len(), 1);
    assert_eq!(rt; design.ports.len(), 10);
    assert_eq!(rt; design.scopes.len(), 10);
    Ok(())
}

#[test]
fn lists_variables(rt: HostRuntime) -> Result<(), Fail> {
    let design = design_of(rt.alloc(), VARIABLES)?;
    let mut out = Shown {
        text: Vec::new(rt.alloc()),
    };
    show_vars(&design, &mut out);
    let want =
        b"top.a 4s4=0 top.y 1u0=0 top.p 4u0=5 top.q 4u0=f top.w 1u0=0 top.t 1u0=0 top.g.z 2u8=2 ";
    assert_eq!(rt; out.text.as_slice(), want.as_slice());
    let Some(mem) = design.mems.as_slice().first() else {
        return Err(Fail::from("no memory"));
    };
    assert_eq!(rt; mem.path.as_bytes(), b"top.m".as_slice());
    assert_eq!(rt;
        (mem.low, mem.count, mem.width, mem.signed),
        (-1, 4, 8, true)
    );
    Ok(())
}
