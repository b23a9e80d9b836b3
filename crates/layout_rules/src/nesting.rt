/// What a statement does to the nesting of DO loops and blocks of IF.
#[derive(Clone, Copy)]
pub enum Role {
    /// It is not executable.
    Declaration,
    /// It begins a loop whose range ends at this label.
    BeginLoop(u32),
    /// It begins a block and the first arm of it.
    BeginBlock,
    /// It ends an arm and begins another one.
    NextArm,
    /// It ends an arm and begins the last one.
    LastArm,
    /// It ends a block.
    EndBlock,
    /// Nothing stands after it.
    Finish,
    /// Another statement that control leaves by a jump of its own, so that no loop ends there.
    Leave,
    /// Loops may end at it.
    Plain,
}

/// What is open.
#[derive(Clone, Copy, Drop)]
pub enum Opened {
    /// A loop whose range ends at the statement with this label.
    Loop(u32),
    /// An arm of a block, and whether it is the last one.
    Block(bool),
}
