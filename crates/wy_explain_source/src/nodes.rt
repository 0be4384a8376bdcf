//! The program as a list of nodes.
use std::alloc::Global;
use wy_ast::NoMemory;

/// A stretch of a source: its first byte, and the byte behind its last one.
#[derive(Clone, Copy, Debug, PartialEq, Eq)]
pub struct Span {
    pub from: u32,
    pub to: u32,
}

impl Span {
    /// The stretch between two offsets, the last that there are where they are larger.
    pub fn of(from: usize, to: usize) -> Span {
        Span {
            from: narrow(from),
            to: narrow(to),
        }
    }

    /// The stretch without bytes at an offset.
    pub fn at(at: u32) -> Span {
        Span { from: at, to: at }
    }

    pub fn is_empty(&self) -> bool {
        self.to <= self.from
    }

    /// Whether the offset lies in it.
    pub fn holds(&self, at: u32) -> bool {
        self.from <= at && at < self.to
    }
}

// The number, or the greatest of 32 bits.
pub(crate) fn narrow(number: usize) -> u32 {
    match u32::try_from(number) {
        Ok(number) => number,
        Err(_) => u32::MAX,
    }
}

/// No node.
pub const NOWHERE: usize = usize::MAX;

/// What a node is.
#[derive(Clone, Copy, Debug, PartialEq, Eq)]
pub enum Class {
    // Declarations; each has the name of what it declares.
    Alias,
    Function,
    Method,
    Property,
    /// A parameter, a named result, the variable of a type, the variable of a quantifier: at the place where a fault of its
    /// name stands.
    Param,
    Output,
    Variable,
    Range,
    // Statements.
    Declare,
    Assign,
    CallStmt,
    Return,
    Assert,
    Break,
    Continue,
    Skip,
    Fail,
    If,
    While,
    Do,
    For,
    Switch,
    // Expressions.
    Null,
    Bool,
    Int,
    Text,
    Var,
    Call,
    Neg,
    Not,
    Len,
    Arithmetic,
    Divide,
    Equality,
    Comparison,
    And,
    Or,
    Implies,
    Is,
    Index,
    Field,
    List,
    Repeat,
    Record,
    Quant,
    /// A field of a record expression, at its value.
    RecordField,
    // Types.
    PlainType,
    RecordType,
    /// A field of a record type, at its type.
    FieldType,
    ArrayType,
    UnionType,
    InterType,
    NotType,
    NamedType,
}

/// Which part of its parent a node is.
#[derive(Clone, Copy, Debug, PartialEq, Eq)]
pub enum Role {
    Whole,
    Requires,
    Ensures,
    Where,
    Body,
    Else,
    Test,
    Value,
    From,
    To,
    Label,
    Step,
    Argument,
    Left,
    Right,
    Operand,
    Type,
}

/// A node of the program: what it is, the offset that the passes give as its place, the stretch of the source that it takes, the
/// name that it has or names, and its parent.
#[derive(Clone, Copy, Debug)]
pub struct Node {
    pub class: Class,
    pub role: Role,
    pub at: u32,
    pub span: Span,
    pub name: Span,
    pub parent: usize,
    /// Of which declaration it is a part.
    pub decl: usize,
}

/// The nodes of a program, each behind its parent.
#[derive(Drop)]
pub struct Nodes {
    list: Vec<Node>,
    decl: usize,
}

impl Nodes {
    /// No nodes.
    pub fn new(alloc: Global) -> Nodes {
        Nodes {
            list: Vec::new(alloc),
            decl: NOWHERE,
        }
    }

    pub fn all(&self) -> &[Node] {
        self.list.as_slice()
    }

    pub fn len(&self) -> usize {
        self.list.len()
    }

    pub fn is_empty(&self) -> bool {
        self.list.is_empty()
    }

    /// The node with this number; none where it is the number of none.
    pub fn get(&self, node: usize) -> Option<Node> {
        match self.list.get(node) {
            Some(node) => Some(*node),
            None => None,
        }
    }

    /// Puts a node behind the others, whose stretch and name aren't known yet; its number.
    pub fn put(
        &mut self,
        class: Class,
        role: Role,
        at: u32,
        parent: usize,
    ) -> Result<usize, NoMemory> {
        let number = self.list.len();
        if parent == NOWHERE {
            self.decl = number;
        }
        let decl = self.decl;
        self.list.push(Node {
            class,
            role,
            at,
            span: Span::at(at),
            name: Span::at(at),
            parent,
            decl,
        })?;
        Ok(number)
    }

    /// The node takes this stretch.
    pub fn spread(&mut self, node: usize, span: Span) {
        if node < self.list.len() {
            let mut now = self.list[node];
            now.span = span;
            self.list[node] = now;
        }
    }

    /// The node has or names this name.
    pub fn name(&mut self, node: usize, name: Span) {
        if node < self.list.len() {
            let mut now = self.list[node];
            now.name = name;
            self.list[node] = now;
        }
    }

    /// The first node at this place of which the test is true.
    pub fn find<F: Fn(Class) -> bool>(&self, at: u32, is_meant: F) -> Option<usize>
        requires { F.IsAlwaysCallable is_meant }
    {
        let mut number = 0usize;
        for node in self.list.as_slice() {
            if node.at == at && is_meant(node.class) {
                return Some(number);
            }
            number = number.saturating_add(1);
        }
        None
    }
}

impl Class {
    /// Whether it is a declaration.
    pub fn is_decl(self) -> bool {
        matches!(
            self,
            Class::Alias | Class::Function | Class::Method | Class::Property
        )
    }

    /// Whether it is a function or a method.
    pub fn is_routine(self) -> bool {
        matches!(self, Class::Function | Class::Method)
    }

    /// Whether it is a loop.
    pub fn is_loop(self) -> bool {
        matches!(self, Class::While | Class::Do | Class::For)
    }

    /// Whether it is a statement.
    pub fn is_stmt(self) -> bool {
        match self {
            Class::Declare
            | Class::Assign
            | Class::CallStmt
            | Class::Return
            | Class::Assert
            | Class::Break
            | Class::Continue
            | Class::Skip
            | Class::Fail
            | Class::If
            | Class::While
            | Class::Do
            | Class::For
            | Class::Switch => true,
            _ => false,
        }
    }

    /// Whether it is an expression.
    pub fn is_expr(self) -> bool {
        match self {
            Class::Null
            | Class::Bool
            | Class::Int
            | Class::Text
            | Class::Var
            | Class::Call
            | Class::Neg
            | Class::Not
            | Class::Len
            | Class::Arithmetic
            | Class::Divide
            | Class::Equality
            | Class::Comparison
            | Class::And
            | Class::Or
            | Class::Implies
            | Class::Is
            | Class::Index
            | Class::Field
            | Class::List
            | Class::Repeat
            | Class::Record
            | Class::Quant => true,
            _ => false,
        }
    }

    /// Whether it declares a name.
    pub fn declares(self) -> bool {
        match self {
            Class::Param
            | Class::Output
            | Class::Variable
            | Class::Range
            | Class::Declare
            | Class::For => true,
            _ => self.is_decl(),
        }
    }

    /// Whether it is a type.
    pub fn is_type(self) -> bool {
        match self {
            Class::PlainType
            | Class::RecordType
            | Class::ArrayType
            | Class::UnionType
            | Class::InterType
            | Class::NotType
            | Class::NamedType => true,
            _ => false,
        }
    }
}
