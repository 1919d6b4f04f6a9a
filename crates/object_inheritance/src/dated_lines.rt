//! Lines of dates: which a time period has, by itself or by templates (chapters "Time Periods" and "Object
//! Inheritance").

ghost use Rattle.std.specs.Prelude.{◌≡◌, ℕ, ◌<◌, ◌≤◌, ◌==◌, ◌++◌, ◌∷◌, List, [], length, map};
ghost use Rattle.std.specs.Prelude.{None, Some, replicate, reverse, slice_index_or, slice_set, IfOk, OnOk};
ghost use Rattle.std.specs.Option.{option_or};
ghost use Rattle.object_inheritance.specs.claims.DatedLines.{dated_line, AreLines};
ghost use Rattle.object_inheritance.specs.DatedLines.{named};
ghost use Rattle.object_inheritance.specs.claims.Inherited.{own, value};
ghost use Rattle.object_inheritance.specs.Inherited.{AreInherited};
ghost use Rattle.object_inheritance.specs.LineSearch.{AreMarks, IsFound, IsNextTurn, IsSearch};
ghost use Rattle.object_inheritance.specs.LineSearch.{IsTurn, noted, said_by, used_at};
ghost use Rattle.object_inheritance.specs.declared.dated_lines.Turn.TheVariants.{Enter, Leave};
ghost use Rattle.object_inheritance.specs.claims.Templates.{template_graph};
ghost use Rattle.object_values.specs.claims.Values.{value_in};

use crate::templates::Templates;
use graph::edges::Graph;
use indexmap::IndexMap;
use object_reader::block::{Block, Directive};
use object_values::ranges::is_dated;
use std::alloc::{AllocError, Global};

/// A line of dates: the words of its name with one space between each two, and its text without blanks.
#[derive(Clone, Copy)]
pub struct Line<'a> {
    pub name: &'a [u8],
    pub text: &'a [u8],
}

/// The lines that are found: of those of one name the first.
#[derive(Drop)]
pub(crate) struct Found<'a> {
    lines: Vec<Line<'a>>,
    /// The names of the lines.
    names: IndexMap<&'a [u8], bool>,
}

/// Nothing is found yet.
fn nothing_found<'a>(alloc: Global) -> Found<'a>
    ensures lines { result.lines.items ≡ [] }
    ensures names { result.names.entries ≡ [] }
{
    Found {
        lines: Vec::new(alloc),
        names: IndexMap::new(alloc),
    }
}

/// Notes a directive, where it is a line of dates and none of its name is noted.
fn note<'a>(found: &mut Found<'a>, directive: &'a Directive) -> Result<(), AllocError>
    requires { IsFound found.old }
    ensures found { OnOk result (IsFound found.new) }
    ensures noted { OnOk result ((name : List ℕ) → noted found.new.lines.items name
        ≡ option_or (noted found.old.lines.items name) (said_by directive.now name)) }
{
    let name = directive.name.as_slice();
    if !is_dated(name) {
        return Ok(());
    }
    if found.names.contains_key(&name) {
        return Ok(());
    }
    found.names.insert(name, true)?;
    found.lines.push(Line {
        name,
        text: directive.value.as_slice(),
    })?;
    Ok(())
}

/// Notes the lines of a block: of those of one name the last.
fn note_lines<'a>(found: &mut Found<'a>, directives: &'a [Directive]) -> Result<(), AllocError>
    requires { IsFound found.old }
    ensures found { OnOk result (IsFound found.new) }
    ensures noted { OnOk result ((name : List ℕ) → noted found.new.lines.items name ≡ option_or
        (noted found.old.lines.items name) (dated_line name (value_in directives.now name))) }
{
    let mut left = directives.len();
    while left > 0 {
        left -= 1;
        note(found, &directives[left])?;
    }
    Ok(())
}

/// What is still to be done of a search.
#[derive(Clone, Copy)]
pub(crate) enum Turn {
    /// To look at the block at the place, and then at its templates.
    Enter(u32),
    /// To go on when its templates were looked at.
    Leave(u32),
}

/// The next turn; none where nothing is to be done.
fn next_turn(turns: &mut Vec<Turn>) -> Option<Turn>
    ensures { IsNextTurn (reverse turns.old.items) result (reverse turns.new.items) }
{
    turns.pop()
}

/// Adds the templates that a block uses, so that the first is the next.
fn push_templates(turns: &mut Vec<Turn>, used: &[u32]) -> Result<(), AllocError>
    ensures { OnOk result (reverse turns.new.items
        ≡ map Enter used.now ++ reverse turns.old.items) }
{
    let mut left = used.len();
    while left > 0 {
        left -= 1;
        turns.push(Turn::Enter(used[left]))?;
    }
    Ok(())
}

/// How many blocks and directives searches look at in all: a block counts once for each period that takes from it.
const MOST: u64 = 33_554_432;

/// Which blocks a search has done with. They serve the searches of one text, one after another.
#[derive(Drop)]
pub struct LineMarks {
    /// A block whose mark is `mark` is done with.
    marks: Vec<u64>,
    mark: u64,
    /// How many blocks and directives may still be looked at.
    left: u64,
}

/// So many marks that mark nothing.
fn no_marks(alloc: Global, count: usize) -> Result<Vec<u64>, AllocError>
    ensures { IfOk result (λ marks. marks.items ≡ replicate count 0) }
{
    vec![in alloc; 0; count]
}

/// No block is done with. It takes 8 bytes a block. A refused growth leaves nothing.
pub fn line_marks(alloc: Global, templates: &Templates<'_>) -> Result<LineMarks, AllocError>
    ensures { IfOk result (AreMarks templates.now) }
{
    let marks = no_marks(alloc, templates.blocks().len())?;
    Ok(LineMarks {
        marks,
        mark: 1,
        left: MOST,
    })
}

/// Whether the block at the place is done with.
fn is_done(marks: &LineMarks, place: u32) -> bool
    requires { place < length marks.now.marks.items }
    ensures { result ≡ (slice_index_or marks.now.marks.items place 0 == marks.now.mark) }
{
    marks.marks.as_slice()[place as usize] == marks.mark
}

/// The block at the place is done with.
fn leave(marks: &mut LineMarks, place: u32)
    requires { place < length marks.old.marks.items }
    ensures marks { marks.new.marks.items
        ≡ slice_set marks.old.marks.items place marks.old.mark }
    ensures mark { marks.new.mark ≡ marks.old.mark }
{
    let mark = marks.mark;
    marks.marks.as_mut_slice()[place as usize] = mark;
}

/// Counts a block that is looked at, with its directives. Too many are want of memory.
fn count(marks: &mut LineMarks, directives: usize) -> Result<(), AllocError>
    ensures marks { marks.new.marks.items ≡ marks.old.marks.items }
    ensures mark { marks.new.mark ≡ marks.old.mark }
{
    let looked = directives as u64;
    if marks.left <= looked {
        return Err(AllocError);
    }
    marks.left -= looked + 1;
    Ok(())
}

/// Looks at a block.
fn enter<'a>(
    graph: &Graph,
    blocks: &'a [Block],
    place: u32,
    found: &mut Found<'a>,
    turns: &mut Vec<Turn>,
) -> Result<(), AllocError>
    requires graph { graph.now ≡ template_graph blocks.now }
    requires nodes { length graph.now ≡ length blocks.now }
    requires within { place < length blocks.now }
    requires found { IsFound found.old }
    ensures found { OnOk result (IsFound found.new) }
    ensures noted { OnOk result ((name : List ℕ) → noted found.new.lines.items name ≡ option_or
        (noted found.old.lines.items name) (dated_line name (own blocks.now name place))) }
    ensures turns { OnOk result (reverse turns.new.items
        ≡ map Enter (used_at blocks.now place) ++ Leave place ∷ reverse turns.old.items) }
{
    note_lines(found, blocks[place as usize].directives.as_slice())?;
    turns.push(Turn::Leave(place))?;
    push_templates(turns, graph.ends(place))
}

/// Takes a turn of a search.
fn take_turn<'a>(
    graph: &Graph,
    blocks: &'a [Block],
    turn: Turn,
    found: &mut Found<'a>,
    marks: &mut LineMarks,
    turns: &mut Vec<Turn>,
) -> Result<(), AllocError>
    requires inherited { AreInherited blocks.now }
    requires graph { graph.now ≡ template_graph blocks.now }
    requires nodes { length graph.now ≡ length blocks.now }
    requires long { length marks.old.marks.items ≡ length blocks.now }
    requires turn { IsTurn blocks.now turn }
    requires found { IsFound found.old }
    ensures found { OnOk result (IsFound found.new) }
    ensures search { OnOk result ((root : ℕ) → IsSearch blocks.now root found.old.lines.items marks.old
        (turn ∷ reverse turns.old.items)
        → IsSearch blocks.now root found.new.lines.items marks.new (reverse turns.new.items)) }
{
    match turn {
        Turn::Leave(place) => {
            leave(marks, place);
            Ok(())
        }
        Turn::Enter(place) => {
            if is_done(marks, place) {
                return Ok(());
            }
            count(marks, blocks[place as usize].directives.len())?;
            enter(graph, blocks, place, found, turns)
        }
    }
}

/// Notes the lines of dates that the block `root` has, by itself or by templates. Each block is looked at once, so long as
/// templates have no loop.
fn search<'a>(
    alloc: Global,
    graph: &Graph,
    blocks: &'a [Block],
    root: u32,
    found: &mut Found<'a>,
    marks: &mut LineMarks,
) -> Result<(), AllocError>
    requires inherited { AreInherited blocks.now }
    requires graph { graph.now ≡ template_graph blocks.now }
    requires nodes { length graph.now ≡ length blocks.now }
    requires within { root < length blocks.now }
    requires fresh { found.old.lines.items ≡ [] }
    requires found { IsFound found.old }
    requires marks { AreMarks blocks.now marks.old }
    ensures found { OnOk result (IsFound found.new) }
    ensures search { OnOk result (IsSearch blocks.now root found.new.lines.items marks.new []) }
{
    let mut turns = Vec::new(alloc);
    turns.push(Turn::Enter(root))?;
    for _step in 0..u64::MAX {
        match next_turn(&mut turns) {
            None => return Ok(()),
            Some(turn) => take_turn(graph, blocks, turn, found, marks, &mut turns)?,
        }
    }
    Err(AllocError)
}

/// Forgets which blocks were done with, where a search found a line: only those without a line stay done.
fn forget(marks: &mut LineMarks, lines: &[Line<'_>]) -> Result<(), AllocError>
    ensures { OnOk result ((blocks : List Block) (root : ℕ)
        → IsSearch blocks root lines.now marks.old [] → AreMarks blocks marks.new) }
{
    if lines.is_empty() {
        return Ok(());
    }
    if marks.mark == u64::MAX {
        return Err(AllocError);
    }
    marks.mark += 1;
    Ok(())
}

/// The lines of dates that the block at the place has, by itself or by templates, each name once. The time grows with the
/// blocks that it takes from and their directives, each counted once. Over 33,554,432 of these in all searches with the
/// same marks are want of memory.
pub fn lines_at<'a>(
    alloc: Global,
    templates: &Templates<'a>,
    marks: &mut LineMarks,
    place: usize,
) -> Result<Vec<Line<'a>>, AllocError>
    requires within { place < length templates.now }
    requires marks { AreMarks templates.now marks.old }
    ensures lines { IfOk result (λ lines. AreLines templates.now place (named lines.items)) }
    ensures marks { OnOk result (AreMarks templates.now marks.new) }
{
    if place > u32::MAX as usize {
        return Err(AllocError);
    }
    let mut found = nothing_found(alloc);
    let blocks = templates.blocks();
    let graph = templates.graph();
    search(alloc, graph, blocks, place as u32, &mut found, marks)?;
    forget(marks, found.lines.as_slice())?;
    Ok(found.lines)
}
