//! What a token of kind Directive is, by the name after its backquote.

ghost use Rattle.std.specs.Prelude.{◌≡◌, drop};
ghost use Rattle.sv_pp.specs.Directive as spec;

/// What the name after a backquote stands for (IEEE 1800-2017 clause 22).
#[derive(Clone, Copy, Debug, PartialEq, Eq)]
pub enum Role {
    /// `` `define `` (22.5.1).
    Define,
    /// `` `undef `` (22.5.2).
    Undef,
    /// `` `ifdef `` (22.6).
    Ifdef,
    /// `` `ifndef `` (22.6).
    Ifndef,
    /// `` `else `` (22.6).
    Else,
    /// `` `endif `` (22.6).
    Endif,
    /// A directive that is skipped with the rest of its line.
    Ignored,
    /// A directive that the subset has not.
    Refused,
    /// Any other name: the use of a macro (22.5.1).
    Use,
}

/// Whether the name is that of a directive without a meaning here: `timescale`, `default_nettype`, `resetall`,
/// `celldefine`, `endcelldefine`.
#[tactic(auto, unfolding(crate::specs::Directive::is_ignored))]
fn is_ignored(name: &[u8]) -> bool
    ensures { result ≡ spec.is_ignored name.now }
{
    name == b"timescale".as_slice()
        || name == b"default_nettype".as_slice()
        || name == b"resetall".as_slice()
        || name == b"celldefine".as_slice()
        || name == b"endcelldefine".as_slice()
}

/// Whether the name is that of a directive outside the subset: `include`, `elsif`, `line`.
#[tactic(auto, unfolding(crate::specs::Directive::is_refused))]
fn is_refused(name: &[u8]) -> bool
    ensures { result ≡ spec.is_refused name.now }
{
    name == b"include".as_slice() || name == b"elsif".as_slice() || name == b"line".as_slice()
}

/// What a name that is not one of the six with a meaning stands for.
#[tactic(auto, unfolding(crate::specs::Directive::other_role))]
fn other_role(name: &[u8]) -> Role
    ensures { result ≡ spec.other_role name.now }
{
    if is_ignored(name) {
        Role::Ignored
    } else if is_refused(name) {
        Role::Refused
    } else {
        Role::Use
    }
}

/// What the name after a backquote stands for.
#[tactic(auto, unfolding(crate::specs::Directive::role_of))]
pub fn role_of(name: &[u8]) -> Role
    ensures { result ≡ spec.role_of name.now }
{
    if name == b"define".as_slice() {
        Role::Define
    } else if name == b"undef".as_slice() {
        Role::Undef
    } else if name == b"ifdef".as_slice() {
        Role::Ifdef
    } else if name == b"ifndef".as_slice() {
        Role::Ifndef
    } else if name == b"else".as_slice() {
        Role::Else
    } else if name == b"endif".as_slice() {
        Role::Endif
    } else {
        other_role(name)
    }
}

/// The spelling without its first byte.
pub fn without_backquote(text: &[u8]) -> &[u8]
    ensures { result.now ≡ drop 1 text.now }
{
    let [_, name @ ..] = text else {
        return text;
    };
    name
}
