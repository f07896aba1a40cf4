ghost use Rattle.std.specs.Prelude.{◌≡◌, ◌+◌, ◌*◌, ◌≤◌, length, IfOk, IfSome, Ok, Err, if◌then◌else◌, option_map};
ghost use Rattle.nx_base.specs.ByteLists.{put_bytes};
ghost use Rattle.nx_cobjects.specs.Groups.{object};
ghost use Rattle.nx_cobjects.specs.Values.{same_element};
ghost use Rattle.nx_cobjects.specs.Memory.{element_at, with_element, ended, new_object};
ghost use Rattle.nx_cobjects.specs.Buffers.{part_of, text_of, text_length, with_bytes};
ghost use Rattle.nx_cobjects.specs.declared.value.WrongKind.TheVariants.{Bounds};

use crate::value::{Value, WrongKind, same_element, size};
use nx_base::{Bytes, get_le32, put_le32};
use nx_checked::{Element, Shape};
use std::alloc::{AllocError, Global};
use std::marker::Model;

/// An object: bytes, and what they are elements of. Contracts see both.
#[derive(Drop)]
pub struct Object {
    element: Element,
    bytes: Vec<u8>,
}

impl Model for Object {
    ghost use Rattle.nx_cobjects.specs.Groups.{Object as Plain, object};

    ghost Value = { Plain };

    ghost view = { λ o. object o.element o.bytes.items };
}

impl Object {
    /// An object with a copy of these bytes.
    pub fn of_bytes(alloc: Global, element: Element, bytes: &[u8]) -> Result<Object, AllocError>
        ensures { IfOk result (λ o. o ≡ object element bytes.now) }
    {
        Ok(Object {
            element,
            bytes: Vec::from_slice(alloc, bytes)?,
        })
    }

    /// An array of zeros.
    pub fn zeros(alloc: Global, shape: Shape) -> Result<Object, AllocError>
        ensures { IfOk result (λ o. o ≡ new_object shape) }
    {
        let bytes = vec![in alloc; 0u8; shape.count as usize * size(shape.element)]?;
        Ok(Object {
            element: shape.element,
            bytes,
        })
    }

    /// Whether it has such elements.
    pub fn is_of(&self, element: Element) -> bool
        ensures { result ≡ same_element element self.now.element }
    {
        same_element(element, self.element)
    }

    /// What is read from the element at a place.
    pub fn get(&self, element: Element, at: u32) -> Result<Value, WrongKind>
        ensures { result ≡ element_at element self.now at }
    {
        if !same_element(element, self.element) {
            return Err(WrongKind::Bounds);
        }
        let at = at as usize;
        if size(element) * (at + 1) > self.bytes.len() {
            return Err(WrongKind::Bounds);
        }
        match element {
            Element::Int => Ok(Value::Int(get_le32(&self.bytes, 4 * at))),
            Element::Char => Ok(Value::Int(self.bytes[at] as u32)),
        }
    }

    /// Stores a number in the element at a place. False where there is none.
    pub fn put(&mut self, element: Element, at: u32, n: u32) -> bool
        ensures { with_element element self.old at n ≡ (if result then Ok self.new else Err Bounds) }
    {
        if !same_element(element, self.element) {
            return false;
        }
        let at = at as usize;
        if size(element) * (at + 1) > self.bytes.len() {
            return false;
        }
        match element {
            Element::Int => put_le32(&mut self.bytes, 4 * at, n),
            Element::Char => self.bytes[at] = (n % 256) as u8,
        }
        true
    }

    /// It ends: no byte is left.
    pub fn end(&mut self)
        ensures { self.new ≡ ended self.old }
    {
        self.bytes.clear();
    }

    /// The first bytes, at most 4,096, of a buffer of `n` bytes that begins at an element.
    pub fn part(&self, alloc: Global, at: u32, n: u32) -> Result<Option<Bytes>, AllocError>
        ensures { IfOk result (λ r. r ≡ part_of self.now at n) }
    {
        let from = size(self.element) * at as usize;
        if from + n as usize > self.bytes.len() {
            return Ok(None);
        }
        let count = (n as usize).min(4096);
        Ok(Some(Bytes::from_slice(alloc, &self.bytes[from..from + count])?))
    }

    /// The bytes of a text that begins at an element.
    pub fn text(&self, alloc: Global, at: u32) -> Result<Option<Bytes>, AllocError>
        ensures { IfOk result (λ r. r ≡ text_of self.now at) }
    {
        let from = size(self.element) * at as usize;
        match length_of_text(&self.bytes, from, 256) {
            None => Ok(None),
            Some(count) => Ok(Some(Bytes::from_slice(alloc, &self.bytes[from..from + count])?)),
        }
    }

    /// Puts bytes at an element, where they lie in the object.
    pub fn put_bytes(&mut self, at: u32, new: &[u8])
        ensures { self.new ≡ with_bytes self.old at new.now }
    {
        let from = size(self.element) * at as usize;
        if new.len() > self.bytes.len() || from > self.bytes.len() - new.len() {
            return;
        }
        put_at(&mut self.bytes, from, new);
    }
}

// How many bytes stand from a place on before the first zero byte, if that is among the first `n`.
fn length_of_text(bytes: &[u8], at: usize, n: usize) -> Option<usize>
    ensures value { result ≡ text_length bytes.now at n }
    ensures within { IfSome result (λ k. at + k ≤ length bytes.now) }
{
    if n == 0 || at >= bytes.len() {
        return None;
    }
    if bytes[at] == 0 {
        return Some(0);
    }
    match length_of_text(bytes, at + 1, n - 1) {
        None => None,
        Some(k) => Some(k + 1),
    }
}

// Puts bytes at a place.
fn put_at(bytes: &mut [u8], at: usize, new: &[u8])
    requires { at + length new.now ≤ length bytes.old }
    ensures { bytes.new ≡ put_bytes bytes.old at new.now }
{
    bytes[at..at + new.len()].copy_from_slice(new);
}
