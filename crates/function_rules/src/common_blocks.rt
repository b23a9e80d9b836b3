//! The blocks of COMMON.

use fortran_tree::{Head, LowerError, Name, Sign, Statement, is_sign};
use indexmap::IndexMap;
use std::alloc::Global;

/// The names of COMMON blocks, in their order. The blank block has no name.
pub(crate) type Blocks = IndexMap<Option<Name>, Vec<Name>>;

/// The blocks that COMMON statements among these give.
pub(crate) fn blocks_of(alloc: Global, statements: &[Statement]) -> Result<Blocks, LowerError> {
    let mut blocks: Blocks = IndexMap::new(alloc);
    for statement in statements {
        if !matches!(statement.head, Head::Common) {
            continue;
        }
        let mut block: Option<Name> = None;
        let mut is_inside = false;
        for node in &statement.body {
            if is_sign(node, Sign::Divide) {
                is_inside = !is_inside;
                if is_inside {
                    block = None;
                }
            } else if let Some(name) = node.name() {
                if is_inside {
                    block = Some(name);
                } else {
                    add(alloc, &mut blocks, block, name)?;
                }
            }
        }
    }
    Ok(blocks)
}

/// Adds a name to a block.
fn add(
    alloc: Global,
    blocks: &mut Blocks,
    block: Option<Name>,
    name: Name,
) -> Result<(), LowerError> {
    if let Some(names) = blocks.get_mut(&block) {
        names.push(name)?;
        return Ok(());
    }
    let mut names = Vec::new(alloc);
    names.push(name)?;
    blocks.insert(block, names)?;
    Ok(())
}
