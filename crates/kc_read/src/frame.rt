//! The state inside a file: the current entry and the open blocks.

ghost use Rattle.std.specs.Prelude.{◌≡◌, ◌+◌, ◌||◌, IfErr, OnOk, None, Some, length, option_map};
ghost use Rattle.std.specs.List.{list_any};
ghost use Rattle.kc_language.specs.Expansion as blocks;
ghost use Rattle.kc_entries.specs.PartsOfExpansion as expansion_parts;
ghost use Rattle.kc_read.specs.Progress.{IsShallow, IsTurned, is_closer};
ghost use Rattle.kc_entries.specs.StatementViews.{head_view};
ghost use Rattle.kc_read.specs.LineReads.{IsFault};

use kc_diagnostics::Cause;
use kc_entries::statement::{Block, EntryKind, Head, LineFault, OpenBlock};
use std::rc::Rc;

// The most blocks that may be open at once.
const MOST_BLOCKS: usize = 64;

/// The state inside a file: its name, how many blocks are open in the files that source it and whether one of them is a
/// choice, its own open blocks (the innermost last), and the entry that the next line may add to.
#[derive(Drop)]
pub(crate) struct Frame {
    pub file: Rc<Vec<u8>>,
    pub depth: usize,
    pub in_choice: bool,
    pub blocks: Vec<OpenBlock>,
    pub entry: EntryKind,
}

// The block that a line opens.
fn opened(head: &Head) -> Option<Block>
    ensures { result ≡ blocks.opened (blocks.bracket (head_view head.now)) }
{
    match head {
        Head::If(_) => Some(Block::If),
        Head::Menu(_) => Some(Block::Menu),
        Head::Choice => Some(Block::Choice),
        _ => None,
    }
}

// Whether a line closes a block.
fn is_closer(head: &Head) -> bool
    ensures { result ≡ is_closer (blocks.bracket (head_view head.now)) }
{
    matches!(head, Head::EndIf | Head::EndMenu | Head::EndChoice)
}

// The entry that a line begins.
fn entry_of(head: &Head) -> EntryKind
    ensures { result ≡ blocks.entry_of (Some (head_view head.now)) }
{
    match head {
        Head::Config(_) => EntryKind::Config,
        Head::Choice => EntryKind::Choice,
        Head::Menu(_) => EntryKind::Menu,
        Head::Comment(_) => EntryKind::Comment,
        Head::If(_) | Head::EndIf | Head::EndMenu | Head::EndChoice | Head::MainMenu(_) =>
            EntryKind::Nothing,
    }
}

fn is_choice(block: Block) -> bool
    ensures { result ≡ blocks.is_choice_block block }
{
    match block {
        Block::Choice => true,
        Block::If | Block::Menu => false,
    }
}

impl Frame {
    /// The innermost open block of the file, and the line that opened it.
    pub(crate) fn innermost(&self) -> Option<&OpenBlock>
        ensures { option_map (λ o. o.now) result ≡ blocks.last_of self.now.blocks.items }
    {
        self.blocks.last()
    }

    /// Whether a choice is open.
    pub(crate) fn is_in_choice(&self) -> bool
        ensures { result ≡ (self.now.in_choice || list_any (λ o. blocks.is_choice_block o.block) self.now.blocks.items) }
    {
        self.in_choice || self.blocks.iter().any(|opener| is_choice(opener.block))
    }

    /// The innermost open block of the file.
    pub(crate) fn own_block(&self) -> Option<Block>
        ensures { result ≡ option_map (λ o. o.block) (blocks.last_of self.now.blocks.items) }
    {
        self.innermost().map(|opener| opener.block)
    }

    /// Takes the line that begins an entry: it may open or close a block, and changes the current entry. The 65th open block
    /// is refused.
    pub(crate) fn take(&mut self, head: &Head, line: u32) -> Result<(), LineFault<'static>>
        requires { IsShallow self.old }
        ensures turned { OnOk result (IsTurned (head_view head.now) line self.old self.new) }
        ensures kept { (self.new.file ≡ self.old.file) × (self.new.depth ≡ self.old.depth) × (self.new.in_choice ≡ self.old.in_choice) }
        ensures shallow { IsShallow self.new }
        ensures allowed { OnOk result (expansion_parts.nesting_cause (self.old.depth + length self.old.blocks.items) (blocks.bracket (head_view head.now)) ≡ None) }
        ensures fault { IfErr result (λ f. IsFault f (λ c. expansion_parts.nesting_cause (self.old.depth + length self.old.blocks.items) (blocks.bracket (head_view head.now)) ≡ Some c)) }
    {
        if let Some(block) = opened(head) {
            if self.depth + self.blocks.len() >= MOST_BLOCKS {
                return Err(Cause::TooDeep);
            }
            let file = self.file.clone()?;
            self.blocks.push(OpenBlock { block, file, line })?;
        }
        if is_closer(head) {
            self.blocks.pop();
        }
        self.entry = entry_of(head);
        Ok(())
    }
}
