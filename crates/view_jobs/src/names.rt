//! What the names of subroutines become, with names of the source.

ghost use Rattle.std.specs.Prelude.{◌++◌, OnOk, codes, flat_map};
ghost use Rattle.source_maps.specs.Places.{map_of, name_in};
ghost use Rattle.view_jobs.specs.Names.{name_text, new_text};
ghost use Rattle.view_output.specs.Told.{Adds, told};

use copied_names::{Becomes, CopiedName};
use df_io::Sink;
use f77_tree::Name;
use source_maps::SourceMap;
use view_output::{Fault, Output};

/// Writes a line for each name: the subroutine, the name, and what it becomes.
pub fn write_names<K: Sink + Drop>(
    source: SourceMap<'_>,
    names: &[CopiedName],
    output: &mut Output<K>,
) -> Result<(), Fault>
    ensures { OnOk result (Adds (told K.got output.old) (told K.got output.new) (flat_map (name_text (map_of source.entry)) names.now)) }
{
    for name in names {
        write_name(source, name, output)?;
    }
    Ok(())
}

// Writes the line of a name.
fn write_name<K: Sink + Drop>(
    source: SourceMap<'_>,
    name: &CopiedName,
    output: &mut Output<K>,
) -> Result<(), Fault>
    ensures { OnOk result (Adds (told K.got output.old) (told K.got output.new) (name_text (map_of source.entry) name.now)) }
{
    write_word(source, &name.unit, output)?;
    write_word(source, &name.name, output)?;
    write_new(source, &name.becomes, output)
}

// Writes a name and a blank.
fn write_word<K: Sink + Drop>(
    source: SourceMap<'_>,
    name: &Name,
    output: &mut Output<K>,
) -> Result<(), Fault>
    ensures { OnOk result (Adds (told K.got output.old) (told K.got output.new) (name_in (map_of source.entry).names name.now ++ codes " ")) }
{
    output.bytes(source.name(name.as_bytes()))?;
    output.text(" ")
}

// Writes what a name becomes, and the end of the line.
fn write_new<K: Sink + Drop>(
    source: SourceMap<'_>,
    becomes: &Becomes,
    output: &mut Output<K>,
) -> Result<(), Fault>
    ensures { OnOk result (Adds (told K.got output.old) (told K.got output.new) (new_text (map_of source.entry) becomes.now)) }
{
    match becomes {
        Becomes::Argument(place) => {
            output.text("argument ")?;
            output.number(*place as u64)?;
        }
        Becomes::Named(name) => output.bytes(source.name(name.as_bytes()))?,
    }
    output.text("\n")
}
