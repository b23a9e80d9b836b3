//! Declarations of entities that are merged.
ghost use Rattle.std.specs.Prelude.{◌≡◌, ◌<◌, ◌∷◌, [], length, true, IfOk};
ghost use Rattle.layout_rules.specs.Declarations.{kind_of};
ghost use Rattle.layout_rules.specs.Executables.{kind_or_integer as kind_or_integer_of};
ghost use Rattle.program_units.specs.Expansion.{block_size as block_size_of, common_decl as common_decl_of, common_decls as common_decls_of, declared_in as declared_in_of, type_decl as type_decl_of};
ghost use Rattle.program_units.specs.NamedEntities.{has_name, is_declared};
ghost use Rattle.program_units.specs.Merged.{is_merged};
ghost use Rattle.program_units.specs.Units.{unit_at};

use crate::merging::Merging;
use df_sequence::{Copied, NoMemory, Sequence};
use entity_names::copy_found;
use f77_tree::{Decl, DeclList, Kind, Name};
use program_units::{Entity, copy_of_block};
use std::alloc::Global;

/// The kind of an entity, and its new name with its dimensions.
pub(crate) fn type_decl(
    alloc: Global,
    put: &Merging,
    entity: &Entity,
) -> Result<(Kind, DeclList), NoMemory>
    requires named { has_name put.now.new.now.text.now.us.now entity.now ≡ true }
    requires declared { is_declared put.now.new.now.text.now.us.now entity.now ≡ true }
    ensures kind { IfOk result (λ made. made.0 ≡ kind_or_integer_of (kind_of (declared_in_of put.now.new.now.text.now.us.now entity.now).0 (declared_in_of put.now.new.now.text.now.us.now entity.now).1)) }
    ensures decls { IfOk result (λ made. made.1 ≡ type_decl_of put.now.new.now.text.now.us.now entity.now ∷ []) }
{
    let (k, name) = declared_in(alloc, put, entity)?;
    let declared = &put.new.text.kept[k].declared;
    let decl = Decl {
        name: put.new.name_for(alloc, entity)?,
        dims: declared.dims_of(alloc, &name)?,
    };
    let mut decls = Sequence::new(alloc);
    decls.push(decl)?;
    Ok((kind_or_integer(declared.kind(&name)), decls))
}

// The kind, or Integer where there is none.
fn kind_or_integer(kind: Option<Kind>) -> Kind
    ensures { result ≡ kind_or_integer_of kind }
{
    match kind {
        Some(kind) => kind,
        None => Kind::Integer,
    }
}

// The unit that declares an entity, and the name that the entity has there.
fn declared_in(alloc: Global, put: &Merging, entity: &Entity) -> Result<(usize, Name), NoMemory>
    requires { is_declared put.now.new.now.text.now.us.now entity.now ≡ true }
    ensures inside { IfOk result (λ found. found.0 < length put.now.new.now.text.now.us.now) }
    ensures same { IfOk result (λ found. (unit_at put.now.new.now.text.now.us.now found.0, found.1) ≡ declared_in_of put.now.new.now.text.now.us.now entity.now) }
{
    match entity {
        Entity::Local(k, name) => Ok((*k, name.copy(alloc)?)),
        Entity::InBlock(block, _) => match put.firsts.get(block) {
            Some(k) => {
                let name = copy_found(alloc, put.new.text.kept[*k].blocks.name_at(entity))?;
                Ok((*k, name))
            }
            None => unreachable!(),
        },
    }
}

/// Declarators of the new names of a block that is merged, as many as it has places.
pub(crate) fn common_decls(
    alloc: Global,
    put: &Merging,
    block: &Option<Name>,
) -> Result<DeclList, NoMemory>
    requires { is_merged put.now.new.now.text.now.us.now block.now ≡ true }
    ensures { IfOk result (λ made. made ≡ common_decls_of put.now.new.now.text.now.us.now block.now) }
{
    let mut decls = Sequence::new(alloc);
    for i in 0..block_size(put, block) {
        decls.push(common_decl(alloc, put, block, i)?)?;
    }
    Ok(decls)
}

// The new name of a place of a block that is merged.
fn common_decl(
    alloc: Global,
    put: &Merging,
    block: &Option<Name>,
    place: usize,
) -> Result<Decl, NoMemory>
    requires put { is_merged put.now.new.now.text.now.us.now block.now ≡ true }
    requires inside { place < block_size_of put.now.new.now.text.now.us.now block.now }
    ensures { IfOk result (λ made. made ≡ common_decl_of put.now.new.now.text.now.us.now block.now place) }
{
    let entity = Entity::InBlock(copy_of_block(alloc, block)?, place);
    Ok(Decl {
        name: put.new.name_for(alloc, &entity)?,
        dims: Sequence::new(alloc),
    })
}

// How many places a block has.
fn block_size(put: &Merging, block: &Option<Name>) -> usize
    ensures { result ≡ block_size_of put.now.new.now.text.now.us.now block.now }
{
    match put.firsts.get(block) {
        Some(k) => put.new.text.kept[*k].blocks.size(block),
        None => 0,
    }
}
