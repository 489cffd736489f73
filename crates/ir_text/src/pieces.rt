use ir_syntax::{Op, PartEnd};

/// What begins a line, with the byte that ends the word.
#[derive(Clone, Copy)]
pub enum Head {
    Get,
    Put,
    Const,
    Ea,
    Calc,
    Flag,
    Cond,
    Pick,
    Zext,
    Sext,
    Cut,
    Tick,
    Load,
    Store,
    StoreGo,
    Fence,
    Locked,
    Divide,
    Go,
    Branch,
    BadCode,
    End,
}

/// A piece of a text, as it is read.
#[derive(Clone, Copy)]
pub enum Item {
    /// `block` and the block's address.
    Address(u64),
    /// One byte of code.
    Byte(u8),
    /// The end of the code, with its newline.
    CodeEnd,
    /// An op line.
    Op(Op),
    /// A line that ends a part.
    Part(PartEnd),
    /// The line `end`.
    End,
}

/// What may come next in a text.
#[derive(Clone, Copy)]
pub enum State {
    /// A block, or the end of the text.
    Between,
    /// A block's code.
    Code,
    /// More of a block's code.
    InCode,
    /// A line of a part.
    Inside,
    /// A line of a part, or the block's end.
    After,
}
