//! Templates, and their faults (chapter "Object Inheritance").

ghost use Rattle.std.specs.Prelude.{◌≡◌, ◌<◌, ◌==◌, ◌^◌, ℕ};
ghost use Rattle.std.specs.Prelude.{false, length, All, Contains, None, IfErr, IfNone};
ghost use Rattle.std.specs.Prelude.{slice_index_or, true, IfOk, IfSome, OnOk};
ghost use Rattle.std.specs.Arc.{arc_value};
ghost use Rattle.std.specs.Option.{option_map_or};
ghost use Rattle.graph.specs.claims.Chains.{HasNoLoop};
ghost use Rattle.graph.specs.claims.Edges.{Leads};
ghost use Rattle.graph_order.specs.Loops.{IsFirstOnLoop};
ghost use Rattle.graph_order.specs.Order.{HasLoop, IsOrder};
ghost use Rattle.object_inheritance.specs.claims.Faults.{AreFree, fault_by, is_doubled};
ghost use Rattle.object_inheritance.specs.Faults.{AreUses};
ghost use Rattle.object_inheritance.specs.claims.Faults.{uses_unknown};
ghost use Rattle.object_inheritance.specs.Faults.{IsRefusal};
ghost use Rattle.object_inheritance.specs.Inherited.{AreInherited, AreShort};
ghost use Rattle.object_inheritance.specs.claims.Templates.{template_graph};
ghost use Rattle.object_inheritance.specs.declared.templates.InheritanceFault.TheVariants.{NoMemory};

use crate::givers::Givers;
use crate::names::{TemplateNames, template_name};
use crate::uses::{template_graph, uses_unknown};
use graph::edges::Graph;
use graph_order::loops::first_on_loop;
use graph_order::order::order;
use object_reader::block::Block;
use std::alloc::{AllocError, Global};
use std::marker::Model;
use std::sync::Arc;

/// What is wrong with a block's templates. Of several faults of one block the first counts.
#[derive(Clone, Copy, Debug, PartialEq, Eq)]
pub enum TemplateFault {
    /// The block's `use` has a name that no template of its type has.
    UnknownTemplate,
    /// The block itself lies on a loop of templates that use one another.
    TemplateLoop,
    /// An earlier template of the same type has the same name.
    Doubled,
}

/// Why nothing can be inherited.
#[derive(Clone, Copy, Debug, PartialEq, Eq)]
pub enum InheritanceFault {
    /// The fault of a block, with the line of its `define`.
    AtLine { line: u64, fault: TemplateFault },
    /// Memory ran out, or there are more than 4,294,967,295 blocks. It says nothing of the blocks.
    NoMemory,
}

impl From<AllocError> for InheritanceFault {
    ghost from_gives = { λ _ fault. fault ≡ NoMemory };

    fn from(_error: AllocError) -> InheritanceFault {
        InheritanceFault::NoMemory
    }
}

/// Whether a block before the place is the template of the block's type and name.
fn is_doubled<'a>(names: &TemplateNames<'a>, place: u32, block: &'a Block) -> bool
    ensures { result ≡ is_doubled names.now place block.now }
{
    let Some(name) = template_name(block) else {
        return false;
    };
    match names.find(block.kind, name) {
        Some(first) => first < place,
        None => false,
    }
}

/// The fault of a block, where `looped` says whether it lies on a loop.
fn fault_of<'a>(
    alloc: Global,
    names: &TemplateNames<'a>,
    place: u32,
    block: &'a Block,
    looped: bool,
) -> Result<Option<TemplateFault>, AllocError>
    ensures { IfOk result (λ fault. fault ≡ fault_by (uses_unknown names.now block.now) looped
        (is_doubled names.now place block.now)) }
{
    if uses_unknown(alloc, names, block)? {
        return Ok(Some(TemplateFault::UnknownTemplate));
    }
    if looped {
        return Ok(Some(TemplateFault::TemplateLoop));
    }
    if is_doubled(names, place, block) {
        return Ok(Some(TemplateFault::Doubled));
    }
    Ok(None)
}

/// Whether it is that place.
fn is_at(found: Option<u32>, place: u32) -> bool
    ensures { result ≡ option_map_or (λ at. at == place) found false }
{
    match found {
        Some(at) => at == place,
        None => false,
    }
}

/// Finds the first block with a fault, where `looped` is the first that lies on a loop.
fn check_templates(
    alloc: Global,
    names: &TemplateNames,
    looped: Option<u32>,
) -> Result<(), InheritanceFault>
    requires first { IfSome looped (IsFirstOnLoop (template_graph names.now)) }
    requires no_loop { IfNone looped (HasNoLoop (Leads (template_graph names.now))) }
    ensures free { OnOk result (AreFree names.now) }
    ensures fault { IfErr result (IsRefusal names.now) }
{
    for (place, block) in names.blocks().iter().enumerate() {
        let number = place as u32;
        match fault_of(alloc, names, number, block, is_at(looped, number))? {
            None => {}
            Some(fault) => {
                return Err(InheritanceFault::AtLine {
                    line: block.line,
                    fault,
                });
            }
        }
    }
    Ok(())
}

/// The first fault of blocks of which some lie on a loop.
fn loop_fault(alloc: Global, names: &TemplateNames, graph: &Graph) -> InheritanceFault
    requires graph { graph.now ≡ template_graph names.now }
    requires a_loop { HasLoop graph.now }
    ensures { IsRefusal names.now result }
{
    let Ok(looped) = first_on_loop(alloc, graph) else {
        return InheritanceFault::NoMemory;
    };
    match check_templates(alloc, names, looped) {
        Err(fault) => fault,
        Ok(()) => unreachable!(),
    }
}

/// An order of the blocks in which each stands before the templates that it uses; or the first fault.
fn order_of(
    alloc: Global,
    names: &TemplateNames,
    graph: &Graph,
) -> Result<Vec<u32>, InheritanceFault>
    requires { graph.now ≡ template_graph names.now }
    ensures order { IfOk result (λ places. IsOrder graph.now places.items) }
    ensures free { OnOk result (AreFree names.now) }
    ensures fault { IfErr result (IsRefusal names.now) }
{
    let Some(places) = order(alloc, graph)? else {
        return Err(loop_fault(alloc, names, graph));
    };
    check_templates(alloc, names, None)?;
    Ok(places)
}

/// Which templates each block uses.
#[derive(Drop)]
pub(crate) struct Uses {
    graph: Graph,
    /// Each block stands before the templates that it uses.
    order: Vec<u32>,
    /// Of each block whether another uses it. Most are used by none.
    used: Vec<bool>,
}

impl Uses {
    /// The graph of the templates.
    pub(crate) fn graph(&self) -> &Graph
        ensures { result.now ≡ self.now.graph }
    {
        &self.graph
    }

    /// An order of the blocks, in which each stands before the templates that it uses.
    pub(crate) fn order(&self) -> &[u32]
        ensures { result.now ≡ self.now.order.items }
    {
        self.order.as_slice()
    }

    /// Whether a block uses the one at the place; also where there is none.
    pub(crate) fn is_used(&self, place: usize) -> bool
        ensures { result ≡ slice_index_or self.now.used.items place true }
    {
        if place < self.used.len() {
            self.used[place]
        } else {
            true
        }
    }
}

/// Marks these nodes.
fn mark(used: &mut Vec<bool>, nodes: &[u32])
    requires { All (λ q. q < length used.old.items) nodes.now }
    ensures long { length used.new.items ≡ length used.old.items }
    ensures marked { (q : ℕ) → Contains nodes.now q → slice_index_or used.new.items q true ≡ true }
    ensures stays { (q : ℕ) → slice_index_or used.old.items q true ≡ true
        → slice_index_or used.new.items q true ≡ true }
{
    for node in nodes {
        used[*node as usize] = true;
    }
}

/// Of each node whether an edge leads to it.
fn used_nodes(alloc: Global, graph: &Graph) -> Result<Vec<bool>, AllocError>
    ensures { IfOk result (λ used. (p q : ℕ) → Leads graph.now p q
        → slice_index_or used.items q true ≡ true) }
{
    let count = graph.node_count();
    let mut used = vec![in alloc; false; count as usize]?;
    for node in 0..count {
        mark(&mut used, graph.ends(node));
    }
    Ok(used)
}

/// Which templates each block uses, where none has a fault; or the first fault.
fn uses_of(alloc: Global, names: &TemplateNames) -> Result<Uses, InheritanceFault>
    ensures uses { IfOk result (AreUses names.now) }
    ensures free { OnOk result (AreFree names.now) }
    ensures fault { IfErr result (IsRefusal names.now) }
{
    let graph = template_graph(alloc, names)?;
    let order = order_of(alloc, names, &graph)?;
    let used = used_nodes(alloc, &graph)?;
    Ok(Uses { graph, order, used })
}

/// The same of blocks, of which there are few enough.
fn checked_uses(alloc: Global, blocks: &[Block]) -> Result<Uses, InheritanceFault>
    requires { length blocks.now < 2 ^ 32 }
    ensures uses { IfOk result (AreUses blocks.now) }
    ensures free { OnOk result (AreFree blocks.now) }
    ensures fault { IfErr result (IsRefusal blocks.now) }
{
    let names = TemplateNames::new(alloc, blocks)?;
    uses_of(alloc, &names)
}

/// The same, shared with what is kept of the blocks' values.
fn shared(alloc: Global, uses: Uses) -> Result<Arc<Uses>, AllocError>
    ensures { IfOk result (λ it. arc_value it ≡ uses) }
{
    Ok(Arc::new(alloc, uses)?)
}

/// Blocks whose templates have no fault. It takes 16 bytes a block, 4 a template that a block uses and some 8 to
/// 16 a directive. Contracts see the blocks.
#[derive(Drop)]
pub struct Templates<'a> {
    blocks: &'a [Block],
    uses: Arc<Uses>,
    givers: Givers<'a>,
}

impl<'a> Model for Templates<'a> {
    ghost use Rattle.std.specs.Prelude.{List};
    ghost use Rattle.object_reader.specs.declared.block.Block.{Block};
    ghost use Rattle.std.specs.Arc.{arc_value};
    ghost use Rattle.object_inheritance.specs.Faults.{AreTemplates};

    ghost Value = { List Block };

    ghost view = { λ s. s.blocks.now };

    ghost invariant = { λ s. AreTemplates s.blocks.now (arc_value s.uses) s.givers };
}

impl<'a> Templates<'a> {
    /// The templates of the blocks, or the first fault. The time grows with the bytes of the blocks. A refusal
    /// leaves nothing.
    pub fn new(alloc: Global, blocks: &'a [Block]) -> Result<Templates<'a>, InheritanceFault>
        ensures blocks { IfOk result (λ templates. templates ≡ blocks.now) }
        ensures free { OnOk result (AreFree blocks.now) }
        ensures fault { IfErr result (IsRefusal blocks.now) }
    {
        if blocks.len() > u32::MAX as usize {
            return Err(InheritanceFault::NoMemory);
        }
        let uses = checked_uses(alloc, blocks)?;
        let givers = Givers::new(alloc, blocks)?;
        Ok(Templates {
            blocks,
            uses: shared(alloc, uses)?,
            givers,
        })
    }

    /// The blocks.
    pub fn blocks(&self) -> &'a [Block]
        ensures value { result.now ≡ self.now }

        // What is given to a block is what it gives itself and what the first of its templates has.
        ensures inherited { AreInherited self.now }

        // How far one looks makes no difference from the number of the blocks on.
        ensures short { AreShort self.now }
    {
        self.blocks
    }

    /// Which templates each block uses.
    pub(crate) fn uses(&self) -> &Arc<Uses>
        ensures uses { AreUses self.now (arc_value result.now) }
        ensures few { length self.now < 2 ^ 32 }
    {
        &self.uses
    }

    /// The graph of the templates.
    pub(crate) fn graph(&self) -> &Graph
        ensures value { result.now ≡ template_graph self.now }
        ensures long { length result.now ≡ length self.now }
    {
        self.uses.graph()
    }

    /// What each block gives itself.
    pub(crate) fn givers(&self) -> &Givers<'a>
        ensures { result.now ≡ self.now }
    {
        &self.givers
    }
}
