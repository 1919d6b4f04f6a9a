//! When contacts were last told of the problems of objects.

ghost use Rattle.std.specs.Prelude.{◌≡◌, ◌<◌, ◌==◌, [], find, replicate, slice_set, IfOk, OnOk};
ghost use Rattle.contact_tallies.specs.Heard.{heard, no_problems, told_after, told_of, without};

use due_model::config::{ContactId, ObjectId};
use std::alloc::{AllocError, Global};
use std::marker::Model;

/// How many numbers objects may have.
const NUMBERS: u32 = 65_536;

/// When a contact was last told of an object's problem.
#[derive(Clone, Copy)]
pub struct Told {
    pub contact: ContactId,
    pub moment: u64,
}

/// Who was told of an object's problem, each contact once.
#[derive(Drop)]
pub struct Problem {
    told: Vec<Told>,
}

impl Model for Problem {
    ghost use Rattle.std.specs.Prelude.{List};
    ghost use Rattle.contact_tallies.specs.declared.heard.Told.{Told};

    ghost Value = { List Told };

    ghost view = { λ s. s.told.items };
}

/// What is kept of a contact.
fn found(told: &[Told], contact: ContactId) -> Option<Told>
    ensures { result ≡ find (λ one. one.contact.0 == contact.0) told.now }
{
    told.iter().copied().find(|one| one.contact.0 == contact.0)
}

/// When a contact was last told.
fn heard(told: &[Told], contact: ContactId) -> Option<u64>
    ensures { result ≡ heard told.now contact.0 }
{
    match found(told, contact) {
        Some(one) => Some(one.moment),
        None => None,
    }
}

/// Takes a contact out of those that were told.
fn forget(told: &mut Vec<Told>, contact: ContactId)
    ensures { told.new.items ≡ without told.old.items contact.0 }
{
    told.retain(|one| one.contact.0 != contact.0);
}

impl Problem {
    /// Nobody was told of it.
    fn new(alloc: Global) -> Problem
        ensures { result ≡ [] }
    {
        Problem {
            told: Vec::new(alloc),
        }
    }

    /// When a contact was last told of it.
    fn heard(&self, contact: ContactId) -> Option<u64>
        ensures { result ≡ heard self.now contact.0 }
    {
        heard(self.told.as_slice(), contact)
    }

    /// A contact is told of it.
    fn tell(&mut self, told: Told) -> Result<(), AllocError>
        ensures { OnOk result (self.new ≡ told_after self.old told) }
    {
        forget(&mut self.told, told.contact);
        self.told.push(told)?;
        Ok(())
    }

    /// It is over.
    fn end(&mut self)
        ensures { self.new ≡ [] }
    {
        self.told.clear();
    }
}

/// The problems of all objects, by their numbers. Contracts see of each who was told, and when.
#[derive(Drop)]
pub struct Problems {
    problems: Vec<Problem>,
}

impl Model for Problems {
    ghost use Rattle.std.specs.Prelude.{◌≡◌, List, length};
    ghost use Rattle.contact_tallies.specs.declared.heard.Told.{Told};

    ghost Value = { List (List Told) };

    ghost view = { λ s. s.problems.items };

    ghost invariant = { λ s. length s.problems.items ≡ 65536 };
}

/// So many problems of which nobody was told.
fn nothing(alloc: Global, count: u32) -> Result<Vec<Problem>, AllocError>
    ensures { IfOk result (λ problems. problems.items ≡ replicate count []) }
{
    let mut problems = Vec::new(alloc);
    for _object in 0..count {
        problems.push(Problem::new(alloc))?;
    }
    Ok(problems)
}

impl Problems {
    /// Nobody was told of any. They take most of their memory now: some 2 MB.
    #[tactic(auto, unfolding(crate::specs::Heard::no_problems))]
    pub(crate) fn new(alloc: Global) -> Result<Problems, AllocError>
        ensures { IfOk result (λ problems. problems ≡ no_problems) }
    {
        Ok(Problems {
            problems: nothing(alloc, NUMBERS)?,
        })
    }

    /// When a contact was last told of the problem of an object.
    pub(crate) fn heard(&self, object: ObjectId, contact: ContactId) -> Option<u64>
        ensures value { result ≡ heard (told_of self.now object.0) contact.0 }
        ensures within { object.0 < 65536 }
    {
        self.problems[usize::from(object.0)].heard(contact)
    }

    /// A contact is told of the problem of an object. A refused growth is the only error.
    pub(crate) fn tell(&mut self, object: ObjectId, told: Told) -> Result<(), AllocError>
        ensures { OnOk result (self.new
            ≡ slice_set self.old object.0 (told_after (told_of self.old object.0) told)) }
    {
        self.problems[usize::from(object.0)].tell(told)
    }

    /// The problem of an object is over.
    pub(crate) fn end(&mut self, object: ObjectId)
        ensures value { self.new ≡ slice_set self.old object.0 [] }
        ensures within { object.0 < 65536 }
    {
        self.problems[usize::from(object.0)].end();
    }
}
