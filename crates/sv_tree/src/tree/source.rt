use crate::token::Token;
use crate::tree::item::{Import, Item};
use crate::tree::list::CommaList;
use crate::tree::words::{DataType, Label, Setting};
use sqlite_items::Items;

/// `source = { import | module }`, all files of a design (IEEE 1800-2017 A.1.2).
pub struct SourceTree {
    pub descriptions: Items<Description>,
}

impl Drop for SourceTree {
    fn drop(self) {
        let SourceTree { descriptions } = self;
        let _ = descriptions;
    }
}

/// `import | module`
pub enum Description {
    Import(Import),
    Module(Module),
}

impl Drop for Description {
    fn drop(self) {
        match self {
            Description::Import(part) => {
                let _ = part;
            }
            Description::Module(part) => {
                let _ = part;
            }
        }
    }
}

/// `module = "module" NAME [ "#" "(" param { "," param } ")" ]
/// [ "(" [ dir [ type ] NAME { "," port } ] ")" ] ";" { item } "endmodule" [ ":" NAME ]`
/// (IEEE 1800-2017 A.1.2)
pub struct Module {
    pub word: Token,
    pub name: Token,
    pub parameters: Option<ParameterList>,
    pub ports: Option<PortList>,
    pub semicolon: Token,
    pub items: Items<Item>,
    pub end: Token,
    pub end_label: Option<Label>,
}

impl Drop for Module {
    fn drop(self) {
        let Module {
            word: _,
            name: _,
            parameters,
            ports,
            semicolon: _,
            items,
            end: _,
            end_label: _,
        } = self;
        let _ = parameters;
        let _ = ports;
        let _ = items;
    }
}

/// `"#" "(" param { "," param } ")"`
pub struct ParameterList {
    pub hash: Token,
    pub open: Token,
    pub list: CommaList<Parameter>,
    pub close: Token,
}

impl Drop for ParameterList {
    fn drop(self) {
        let ParameterList {
            hash: _,
            open: _,
            list,
            close: _,
        } = self;
        let _ = list;
    }
}

/// `param = [ "parameter" ] [ type ] NAME "=" expr`
pub struct Parameter {
    pub word: Option<Token>,
    pub kind: Option<DataType>,
    pub setting: Setting,
}

impl Drop for Parameter {
    fn drop(self) {
        let Parameter {
            word: _,
            kind,
            setting,
        } = self;
        let _ = kind;
        let _ = setting;
    }
}

/// `"(" [ dir [ type ] NAME { "," port } ] ")"`
pub struct PortList {
    pub open: Token,
    pub list: Option<CommaList<Port>>,
    pub close: Token,
}

impl Drop for PortList {
    fn drop(self) {
        let PortList {
            open: _,
            list,
            close: _,
        } = self;
        let _ = list;
    }
}

/// `port = [ dir ] [ type ] NAME`; the first port of a list has its direction.
pub struct Port {
    pub direction: Option<Token>,
    pub kind: Option<DataType>,
    pub name: Token,
}

impl Drop for Port {
    fn drop(self) {
        let Port {
            direction: _,
            kind,
            name: _,
        } = self;
        let _ = kind;
    }
}
