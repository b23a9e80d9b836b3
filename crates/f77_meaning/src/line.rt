ghost use Rattle.std.specs.Prelude.{◌≡◌, ◌+◌, ◌≤◌, All, [], ◌∷◌, ◌++◌, length, vec_len, vec_capacity};
ghost use Rattle.f77_tree.specs.Line.{text_of, kind_of_expression, kind_of_op, item_text, line_of, text_with, values_after, line_with, item_room, line_room};
ghost use Rattle.f77_tree.specs.Value.{IsExpression, ArePlaced};
ghost use Rattle.f77_tree.specs.CanRun.{CanPrint};
ghost use Rattle.f77_meaning.specs.Room.{item_pushed, told};

use f77_tree::{Expr, Item, ItemList, Kind, NameInfoList, evaluate};
use itoa::Buffer;
use op_table::{Op, Trap};

/// Writes the line of these items, for which there is room, over what stood there, or finds the first of them that traps.
/// It takes no memory (ANSI X3.9-1978, section 12).
pub fn write_line(
    line: &mut Vec<u8>,
    items: &ItemList,
    names: &NameInfoList,
    store: &Vec<i32>,
) -> Result<(), Trap>
    requires room { line_room items.now ≤ vec_capacity line.old }
    requires items { All (CanPrint names.now) items.now }
    requires places { ArePlaced names.now (length store.now.items) }
    ensures line { line_of names.now store.now.items items.now ≡ told result line.new.items }
    ensures capacity { vec_capacity line.old ≤ vec_capacity line.new }
{
    line.clear();
    for item in items.as_slice() {
        if let Err(trap) = push_item(line, item, names, store) {
            return Err(trap);
        }
    }
    push_byte(line, b'\n');
    Ok(())
}

/// Writes the line of these items, for which there is room, over what stood there. Their expressions have these values,
/// one after another; an expression for which none is left is written as nothing. It takes no memory.
pub fn write_values(line: &mut Vec<u8>, items: &ItemList, names: &NameInfoList, values: &[i32])
    requires room { line_room items.now ≤ vec_capacity line.old }
    requires items { All (CanPrint names.now) items.now }
    ensures line { line.new.items ≡ line_with names.now items.now values.now }
    ensures capacity { vec_capacity line.old ≤ vec_capacity line.new }
{
    line.clear();
    let mut rest = values;
    for item in items.as_slice() {
        push_item_with(line, item, names, rest);
        rest = values_after(item, rest);
    }
    push_byte(line, b'\n');
}

// Appends a blank and an item, where these values are still to come.
fn push_item_with(line: &mut Vec<u8>, item: &Item, names: &NameInfoList, values: &[i32])
    requires room { vec_len line.old + item_room item.now ≤ vec_capacity line.old }
    requires item { CanPrint names.now item.now }
    ensures line { line.new.items ≡ line.old.items ++ 32 ∷ text_with names.now item.now values.now }
    ensures len { vec_len line.new ≤ vec_len line.old + item_room item.now }
    ensures capacity { vec_capacity line.old ≤ vec_capacity line.new }
{
    push_byte(line, b' ');
    match item {
        Item::Value(e) => {
            if let Some(z) = values.first() {
                push_value(line, kind_of_value(e, names), *z);
            }
        }
        Item::Chars(text) => push_bytes(line, text.as_bytes()),
    }
}

// The values that are still to come after an item.
fn values_after<'a>(item: &Item, values: &'a [i32]) -> &'a [i32]
    ensures { result.now ≡ values_after item.now values.now }
{
    match item {
        Item::Value(_) => values.get(1..).unwrap_or_default(),
        Item::Chars(_) => values,
    }
}

// Appends a blank and an item, or finds that it traps.
fn push_item(
    line: &mut Vec<u8>,
    item: &Item,
    names: &NameInfoList,
    store: &Vec<i32>,
) -> Result<(), Trap>
    requires room { vec_len line.old + item_room item.now ≤ vec_capacity line.old }
    requires item { CanPrint names.now item.now }
    requires places { ArePlaced names.now (length store.now.items) }
    ensures line { item_pushed line.old.items (item_text names.now store.now.items item.now) ≡ told result line.new.items }
    ensures len { vec_len line.new ≤ vec_len line.old + item_room item.now }
    ensures capacity { vec_capacity line.old ≤ vec_capacity line.new }
{
    match item {
        Item::Value(e) => {
            let z = evaluate(e, names, store, None)?;
            push_byte(line, b' ');
            push_value(line, kind_of_value(e, names), z);
            Ok(())
        }
        Item::Chars(text) => {
            push_byte(line, b' ');
            push_bytes(line, text.as_bytes());
            Ok(())
        }
    }
}

// Appends a byte for which there is room.
fn push_byte(line: &mut Vec<u8>, byte: u8)
    requires { vec_len line.old + 1 ≤ vec_capacity line.old }
    ensures items { line.new.items ≡ line.old.items ++ byte ∷ [] }
    ensures len { vec_len line.new ≡ vec_len line.old + 1 }
    ensures capacity { vec_capacity line.old ≤ vec_capacity line.new }
{
    let _pushed = line.push(byte);
}

// Appends bytes for which there is room.
fn push_bytes(line: &mut Vec<u8>, bytes: &[u8])
    requires { vec_len line.old + length bytes.now ≤ vec_capacity line.old }
    ensures items { line.new.items ≡ line.old.items ++ bytes.now }
    ensures len { vec_len line.new ≡ vec_len line.old + length bytes.now }
    ensures capacity { vec_capacity line.old ≤ vec_capacity line.new }
{
    let _pushed = line.extend_from_slice(bytes);
}

// Appends a value, as its kind is written.
fn push_value(line: &mut Vec<u8>, kind: Kind, z: i32)
    requires { vec_len line.old + 11 ≤ vec_capacity line.old }
    ensures items { line.new.items ≡ line.old.items ++ text_of kind z }
    ensures len { vec_len line.new ≤ vec_len line.old + 11 }
    ensures capacity { vec_capacity line.old ≤ vec_capacity line.new }
{
    match kind {
        Kind::Integer => {
            let mut buffer = Buffer::new();
            push_bytes(line, buffer.format(z).as_bytes());
        }
        Kind::Logical => push_byte(line, if z != 0 { b'T' } else { b'F' }),
    }
}

// The kind of an expression's value.
pub fn kind_of_value(e: &Expr, names: &NameInfoList) -> Kind
    requires { IsExpression names.now e.now }
    ensures { result ≡ kind_of_expression names.now e.now }
{
    match e {
        Expr::Const(_) | Expr::Input => Kind::Integer,
        Expr::Truth(_) => Kind::Logical,
        Expr::Read(access) => names.at(access.name).kind,
        Expr::Apply(op, _) => kind_of_operator(*op),
    }
}

// The kind of an operator's value.
fn kind_of_operator(op: Op) -> Kind
    ensures { result ≡ kind_of_op op }
{
    match op {
        Op::Lt | Op::Le | Op::Eq | Op::Ne | Op::Ge | Op::Gt => Kind::Logical,
        Op::Not | Op::And | Op::Or | Op::Eqv | Op::Neqv | Op::Truth => Kind::Logical,
        _ => Kind::Integer,
    }
}
