//! Object text, from its bytes to its configuration.

ghost use Rattle.std.specs.Prelude.{◌≡◌, ◌⊎◌, List, Ok, Err, IfErr, IfOk, OnOk};
ghost use Rattle.due_model.specs.claims.Accepted.{IsAccepted};
ghost use Rattle.due_model.specs.declared.config.Config.{Config};
ghost use Rattle.object_reader.specs.Blocks.{Gives};
ghost use Rattle.object_reader.specs.claims.Grammar.{IsObjectText, IsRefused};
ghost use Rattle.object_reader.specs.declared.block.Block.{Block};
ghost use Rattle.object_reader.specs.declared.fault.ReadFault.{ReadFault};
ghost use Rattle.object_resolve.specs.claims.Text.{IsTextFault, IsTextOf, blocks_read, text_read};
ghost use Rattle.object_faults.specs.declared.load_fault.LoadFault.{LoadFault};
ghost use Rattle.object_faults.specs.declared.load_fault.LoadFault.TheVariants.{NoMemory};

use crate::laws::{accept_resolved, resolve_no_refused};
use crate::resolve::resolve;
use due_model::config::{Choices, Config};
use due_model::sequence::Sequence;
use nagios_text::{marked, plain_blocks};
use object_faults::load_fault::LoadFault;
use object_reader::block::Block;
use object_reader::fault::ReadFault;
use object_reader::reading::read;
use std::alloc::{AllocError, Global};

/// The text that is read, where it is read as Nagios does or isn't.
fn text_read(alloc: Global, nagios: bool, text: Vec<u8>) -> Result<Vec<u8>, AllocError>
    ensures { IfOk result (λ read. read.items ≡ text_read nagios text.items) }
{
    if nagios {
        marked(alloc, &text)
    } else {
        Ok(text)
    }
}

/// The blocks of object text, or its first fault. The text is dropped: the blocks have copies of what they need of it.
fn blocks_of(alloc: Global, nagios: bool, text: Vec<u8>) -> Result<Sequence<Block>, ReadFault>
    ensures blocks { IfOk result (λ blocks. IsObjectText (text_read nagios text.items) blocks) }
    ensures only { (blocks : List Block)
        → IsObjectText (text_read nagios text.items) blocks → Gives result (Ok blocks) }
    ensures fault { IfErr result (λ fault.
        (fault ≡ ReadFault.NoMemory) ⊎ IsRefused (text_read nagios text.items) fault) }
    ensures refused { (fault : ReadFault) → IsRefused (text_read nagios text.items) fault → Gives result (Err fault) }
{
    let text = text_read(alloc, nagios, text)?;
    read(alloc, &text)
}

/// What the blocks are taken for, where they are read as Nagios does or aren't.
fn blocks_read(
    alloc: Global,
    nagios: bool,
    blocks: Sequence<Block>,
) -> Result<Sequence<Block>, AllocError>
    ensures { IfOk result (λ read. read ≡ blocks_read nagios blocks) }
{
    if nagios {
        plain_blocks(alloc, blocks.as_slice())
    } else {
        Ok(blocks)
    }
}

/// The configuration that object text gives, by these choices, or the fault of the text: that of its first line with a fault, and
/// where it is blocks, that of the first block with a fault: first of templates, then of the values of each
/// block, then of names, of loops of exclusions, of loops of dependencies and of limits, each over all blocks in file
/// order. Blocks of `hostextinfo` and `serviceextinfo` say nothing of notifications and are passed over. The work and
/// the memory grow with the bytes, what blocks inherit, and the services, contacts, escalations and dependencies that
/// they give. The text is dropped as soon as its blocks are read.
pub fn load(alloc: Global, choices: Choices, text: Vec<u8>) -> Result<Config, LoadFault>
    // What it gives is the text's configuration by these choices, which is accepted.
    ensures config { IfOk result (λ config. IsTextOf choices.text config text.items) }
    ensures choices { IfOk result (λ config. config.choices ≡ choices) }
    ensures accepted { IfOk result (λ config. IsAccepted config) }
    // A fault is the text's, or memory ran out.
    ensures fault { IfErr result (λ fault. (fault ≡ NoMemory) ⊎ IsTextFault choices.text text.items fault) }
    // A text with a configuration is refused for want of memory alone.
    ensures only { (config : Config) → IsTextOf choices.text config text.items
        → IfErr result (λ fault. fault ≡ NoMemory) }
    // A text with a fault gives no configuration.
    ensures refused { (fault : LoadFault) → IsTextFault choices.text text.items fault → OnOk result ⊥ }
{
    accept_resolved();
    resolve_no_refused();
    let blocks = blocks_of(alloc, choices.text, text)?;
    let taken = blocks_read(alloc, choices.text, blocks)?;
    Ok(resolve(alloc, choices, taken.as_slice())?)
}
