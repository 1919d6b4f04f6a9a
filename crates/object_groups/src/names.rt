//! Names by their numbers, and lists of names (chapter "Object Definitions").

ghost use Rattle.std.specs.Prelude.{◌≡◌, ℕ, ◌<◌, ◌++◌, ◌∷◌, List, [], is_none};
ghost use Rattle.std.specs.Prelude.{length, slice_index_or, IfOk, IfSome, OnOk};
ghost use Rattle.std.specs.List.{list_any};
ghost use Rattle.std.specs.Option.{option_to_list};
ghost use Rattle.object_groups.specs.claims.Names.{has_unknown, is_all};
ghost use Rattle.object_groups.specs.Names.{HasNumbers, is_doubled};
ghost use Rattle.object_groups.specs.claims.Names.{is_exclusion};
ghost use Rattle.object_groups.specs.claims.Names.{lacks, lacks_any};
ghost use Rattle.object_groups.specs.claims.Names.{number_of, numbers_of};
ghost use Rattle.object_values.specs.Values.{texts};

use indexmap::IndexMap;
use object_values::values::equals;
use std::alloc::{AllocError, Global};
use std::marker::Model;

/// Whether a list of names means all that there are: its one entry is `*`.
pub fn is_all(entries: &[&[u8]]) -> bool
    ensures { result ≡ is_all (texts entries.now) }
{
    match entries {
        [entry] => equals(*entry, "*"),
        _ => false,
    }
}

/// Whether an entry of a list leaves something out: it begins with `!`.
fn is_exclusion(entry: &[u8]) -> bool
    ensures { result ≡ is_exclusion entry.now }
{
    match entry {
        [] => false,
        [first, ..] => *first == b'!',
    }
}

/// Whether a list of names has an entry that leaves something out.
pub fn has_exclusion(entries: &[&[u8]]) -> bool
    ensures { result ≡ list_any is_exclusion (texts entries.now) }
{
    for entry in entries {
        if is_exclusion(*entry) {
            return true;
        }
    }
    false
}

/// Notes the number of one more name, unless it stands before it.
fn note<'a>(
    numbers: &mut IndexMap<&'a [u8], usize>,
    name: &'a [u8],
    number: usize,
) -> Result<(), AllocError>
    ensures { OnOk result ((names : List (List ℕ)) → length names ≡ number
        → HasNumbers names numbers.old.entries
        → HasNumbers (names ++ name.now ∷ []) numbers.new.entries) }
{
    numbers.entry(name)?.or_insert(number);
    Ok(())
}

/// Names, numbered from 0. They take some 48 bytes each. Contracts see the list of them.
#[derive(Drop)]
pub struct Names<'a> {
    names: Vec<&'a [u8]>,
    /// The number of each name: the first, where one stands there twice.
    numbers: IndexMap<&'a [u8], usize>,
}

impl<'a> Model for Names<'a> {
    ghost use Rattle.std.specs.Prelude.{ℕ, List};
    ghost use Rattle.object_groups.specs.Names.{HasNumbers};
    ghost use Rattle.object_values.specs.Values.{texts};

    ghost Value = { List (List ℕ) };

    ghost view = { λ s. texts s.names.items };

    ghost invariant = { λ s. HasNumbers (texts s.names.items) s.numbers.entries };
}

impl<'a> Names<'a> {
    /// These names, in this order. A refused growth leaves nothing.
    pub fn new(alloc: Global, names: Vec<&'a [u8]>) -> Result<Names<'a>, AllocError>
        ensures { IfOk result (λ made. made ≡ texts names.entry.items) }
    {
        let mut numbers = IndexMap::with_capacity(alloc, names.len())?;
        for number in 0..names.len() {
            note(&mut numbers, names[number], number)?;
        }
        Ok(Names { names, numbers })
    }

    /// How many names there are.
    pub fn len(&self) -> usize
        ensures { result ≡ length self.now }
    {
        self.names.len()
    }

    /// The name of that number; empty where there are fewer.
    pub fn name(&self, number: usize) -> &'a [u8]
        ensures { result.now ≡ slice_index_or self.now number [] }
    {
        if number < self.names.len() {
            self.names[number]
        } else {
            &[]
        }
    }

    /// The number of a name; the first, where it stands there twice.
    pub fn find(&self, name: &'a [u8]) -> Option<usize>
        ensures number { result ≡ number_of self.now name.now }
        ensures within { IfSome result (λ number. number < length self.now) }
    {
        self.numbers.get(&name).copied()
    }

    /// Whether the name of that number stands before it too.
    pub fn is_doubled(&self, number: usize) -> bool
        ensures { result ≡ is_doubled self.now number }
    {
        match self.find(self.name(number)) {
            Some(first) => first < number,
            None => false,
        }
    }

    /// Whether none of the names is the entry.
    pub fn lacks(&self, entry: &'a [u8]) -> bool
        ensures { result ≡ lacks self.now entry.now }
    {
        self.find(entry).is_none()
    }

    /// Whether a list in which `*` is a name has an entry that none of the names is.
    pub fn lacks_any(&self, entries: &[&'a [u8]]) -> bool
        ensures { result ≡ lacks_any self.now (texts entries.now) }
    {
        for entry in entries {
            if self.lacks(*entry) {
                return true;
            }
        }
        false
    }

    /// Whether a list has an entry that none of the names is. One that means all has none.
    pub fn has_unknown(&self, entries: &[&'a [u8]]) -> bool
        ensures { result ≡ has_unknown self.now (texts entries.now) }
    {
        !is_all(entries) && self.lacks_any(entries)
    }
}

/// Adds the number of a name that is found.
fn push_number(numbers: &mut Vec<usize>, found: Option<usize>) -> Result<(), AllocError>
    ensures { OnOk result (numbers.new.items ≡ numbers.old.items ++ option_to_list found) }
{
    if let Some(number) = found {
        numbers.push(number)?;
    }
    Ok(())
}

/// The numbers of the names that a list has, entry by entry; one that none of the names is has none. A refused growth
/// leaves nothing.
pub fn numbers_of<'a>(
    alloc: Global,
    names: &Names<'a>,
    entries: &[&'a [u8]],
) -> Result<Vec<usize>, AllocError>
    ensures { IfOk result (λ numbers.
        numbers.items ≡ numbers_of names.now (texts entries.now)) }
{
    let mut numbers = Vec::new(alloc);
    for entry in entries {
        push_number(&mut numbers, names.find(*entry))?;
    }
    Ok(numbers)
}
