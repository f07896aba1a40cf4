ghost use Rattle.std.specs.Prelude.{◌≡◌, ◌∷◌, [], ◌++◌, Ok, Err, OnOk, IfOk, if◌then◌else◌, slice_set, slice_index, map, ◌%◌, ◌^◌};
ghost use Rattle.nx_cobjects.specs.Memory.{memory, load, store, with_elements, object_in, element_at, cell_value, group_with, new_object, ended, end_arrays, value_in};
ghost use Rattle.nx_cobjects.specs.Buffers.{with_bytes_in};
ghost use Rattle.nx_cobjects.specs.Memories.{stored_of};
ghost use Rattle.nx_cobjects.specs.Starts.{first_group, array_of};
ghost use Rattle.nx_cobjects.specs.Groups.{object};
ghost use Rattle.nx_checked.specs.declared.checked.Element.TheVariants as element;
ghost use Rattle.nx_cobjects.specs.declared.value.WrongKind.TheVariants.{Bounds};

use crate::object::Object;
use crate::value::{Name, Value, WrongKind};
use nx_base::{Bytes, OutOfMemory};
use nx_checked::{Cell, Checked, Element, GlobalArray, GlobalScalar, Shape};
use std::alloc::{AllocError, Global};
use std::marker::Model;

/// The objects of a group: the variables of the file, and the texts of the program. Contracts see them as lists.
#[derive(Drop)]
pub struct Objects {
    scalars: Vec<u32>,
    arrays: Vec<Object>,
    texts: Vec<Object>,
}

impl Model for Objects {
    ghost use Rattle.nx_cobjects.specs.Groups.{Group};

    ghost Value = { Group };

    ghost view = { λ g. record { scalars = g.scalars.items; arrays = g.arrays.items; texts = g.texts.items } };
}

impl Objects {
    /// The globals of a new group.
    pub fn new(alloc: Global, program: &Checked) -> Result<Objects, OutOfMemory>
        ensures { IfOk result (λ g. g ≡ first_group program.now) }
    {
        Ok(Objects {
            scalars: first_scalars(alloc, program.scalars.as_slice())?,
            arrays: first_arrays(alloc, program.arrays.as_slice())?,
            texts: first_texts(alloc, program.literals.as_slice())?,
        })
    }

    /// The arrays of the file.
    pub fn arrays(&self) -> &[Object]
        ensures { result.now ≡ self.now.arrays }
    {
        &self.arrays
    }

    /// The texts of the program.
    pub fn texts(&self) -> &[Object]
        ensures { result.now ≡ self.now.texts }
    {
        &self.texts
    }

    #[tactic(auto, using(crate::proofs::Bits::word))]
    fn scalar(&self, i: usize) -> u32
        ensures { result ≡ slice_index self.now.scalars i % 2 ^ 32 }
    {
        if i < self.scalars.len() {
            self.scalars[i]
        } else {
            0
        }
    }

    /// A variable of the file gets a number.
    pub fn put_scalar(&mut self, i: usize, n: u32)
        ensures { self.new ≡ group_with self.old i n }
    {
        if i < self.scalars.len() {
            self.scalars[i] = n;
        }
    }

    /// Stores a number in an element of an array. False where there is none.
    fn put(&mut self, element: Element, i: usize, at: u32, n: u32) -> bool
        ensures arrays { with_elements element self.old.arrays i at n ≡ (if result then Ok self.new.arrays else Err Bounds) }
        ensures scalars { self.new.scalars ≡ self.old.scalars }
        ensures texts { self.new.texts ≡ self.old.texts }
    {
        put_in(&mut self.arrays, element, i, at, n)
    }

    /// Puts bytes at an element of an array, where they lie in it.
    pub fn put_bytes(&mut self, i: usize, at: u32, new: &[u8])
        ensures { self.new ≡ record { scalars = self.old.scalars; arrays = with_bytes_in self.old.arrays i at new.now; texts = self.old.texts } }
    {
        put_bytes_in(&mut self.arrays, i, at, new)
    }
}

fn push<T: Drop>(items: &mut Vec<T>, item: T) -> Result<(), AllocError>
    ensures { OnOk result (items.new.items ≡ items.old.items ++ item ∷ []) }
{
    items.push(item)?;
    Ok(())
}

fn first_scalars(alloc: Global, scalars: &[GlobalScalar]) -> Result<Vec<u32>, AllocError>
    ensures { IfOk result (λ v. v.items ≡ map (λ x. x.value) scalars.now) }
{
    let mut done = Vec::new(alloc);
    for x in scalars {
        push(&mut done, x.value)?;
    }
    Ok(done)
}

fn first_arrays(alloc: Global, arrays: &[GlobalArray]) -> Result<Vec<Object>, AllocError>
    ensures { IfOk result (λ v. v.items ≡ map array_of arrays.now) }
{
    let mut done = Vec::new(alloc);
    for x in arrays {
        let array = Object::of_bytes(alloc, x.shape.element, x.bytes.as_slice())?;
        push(&mut done, array)?;
    }
    Ok(done)
}

fn first_texts(alloc: Global, texts: &[Bytes]) -> Result<Vec<Object>, AllocError>
    ensures { IfOk result (λ v. v.items ≡ map (object element.Char) texts.now) }
{
    let mut done = Vec::new(alloc);
    for x in texts {
        let text = Object::of_bytes(alloc, Element::Char, x.as_slice())?;
        push(&mut done, text)?;
    }
    Ok(done)
}

fn get_in(objects: &[Object], element: Element, i: usize, at: u32) -> Result<Value, WrongKind>
    ensures { result ≡ element_at element (object_in objects.now i) at }
{
    match objects.get(i) {
        Some(o) => o.get(element, at),
        None => Err(WrongKind::Bounds),
    }
}

fn put_in(objects: &mut [Object], element: Element, i: usize, at: u32, n: u32) -> bool
    ensures { with_elements element objects.old i at n ≡ (if result then Ok objects.new else Err Bounds) }
{
    if i >= objects.len() {
        return false;
    }
    objects[i].put(element, at, n)
}

/// Puts bytes at an element of an object, where they lie in it.
pub fn put_bytes_in(objects: &mut [Object], i: usize, at: u32, new: &[u8])
    ensures { objects.new ≡ with_bytes_in objects.old i at new.now }
{
    if i < objects.len() {
        objects[i].put_bytes(at, new)
    }
}

fn end_in(objects: &mut [Object], i: usize)
    ensures { objects.new ≡ slice_set objects.old i (ended (object_in objects.old i)) }
{
    if i < objects.len() {
        objects[i].end()
    }
}

/// So many arrays from a place on have ended.
#[tactic(auto, using(crate::proofs::PastEnd::end_past))]
pub fn end_arrays(own: &mut [Object], from: usize, count: usize)
    ensures { own.new ≡ end_arrays own.old from count }
{
    if count == 0 {
        return;
    }
    if from >= own.len() {
        return;
    }
    end_in(own, from);
    end_arrays(own, from + 1, count - 1)
}

/// A new array of a thread.
pub fn new_array(alloc: Global, own: &mut Vec<Object>, shape: Shape) -> Result<(), AllocError>
    ensures { OnOk result (own.new.items ≡ own.old.items ++ new_object shape ∷ []) }
{
    let array = Object::zeros(alloc, shape)?;
    push(own, array)
}

/// What is read at a pointer.
pub fn load(
    group: &Objects,
    own: &[Object],
    element: Element,
    at: Value,
) -> Result<Value, WrongKind>
    ensures { result ≡ load (memory group.now own.now) element at }
{
    match at {
        Value::Point(Name::Array(i), place) => get_in(group.arrays(), element, i as usize, place),
        Value::Point(Name::Text(i), place) => get_in(group.texts(), element, i as usize, place),
        Value::Point(Name::Own(i), place) => get_in(own, element, i as usize, place),
        Value::Forged(_) => Err(WrongKind::Forged),
        Value::Int(_) | Value::Entry(_) => Err(WrongKind::Bounds),
    }
}

/// Stores a number at a pointer, or says what is wrong.
pub fn store(
    group: &mut Objects,
    own: &mut [Object],
    element: Element,
    at: Value,
    n: u32,
) -> Result<(), WrongKind>
    ensures { store (memory group.old own.old) element at n ≡ stored_of result (memory group.new own.new) }
{
    match at {
        Value::Point(Name::Array(i), place) => {
            if group.put(element, i as usize, place, n) {
                Ok(())
            } else {
                Err(WrongKind::Bounds)
            }
        }
        Value::Point(Name::Own(i), place) => {
            if put_in(own, element, i as usize, place, n) {
                Ok(())
            } else {
                Err(WrongKind::Bounds)
            }
        }
        Value::Forged(_) => Err(WrongKind::Forged),
        Value::Point(Name::Text(_), _) | Value::Int(_) | Value::Entry(_) => Err(WrongKind::Bounds),
    }
}

/// The value at a place of a call's cells; the number 0 outside them.
pub fn value_at(cells: &[Value], i: usize) -> Value
    ensures { result ≡ value_in cells.now i }
{
    if i < cells.len() {
        cells[i]
    } else {
        Value::Int(0)
    }
}

/// The value of a variable, in a call with these cells.
pub fn cell(group: &Objects, own: &[Object], cells: &[Value], x: Cell) -> Value
    ensures { result ≡ cell_value (memory group.now own.now) cells.now x }
{
    match x {
        Cell::Local(i) => value_at(cells, i as usize),
        Cell::Global(i) => Value::Int(group.scalar(i as usize)),
    }
}

/// Gives a variable of a call a value.
pub fn put_local(cells: &mut [Value], i: usize, v: Value)
    ensures { cells.new ≡ slice_set cells.old i v }
{
    if i < cells.len() {
        cells[i] = v;
    }
}
