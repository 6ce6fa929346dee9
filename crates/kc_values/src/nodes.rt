//! The nodes of the graph of needs.

ghost use Rattle.std.specs.Prelude.{◌≡◌, ◌<◌, ◌≤◌, length};
ghost use Rattle.kc_values.specs.Nodes as spec;
ghost use Rattle.kc_values.specs.Nodes.{IsNode};

use kc_expr::expression::SymId;
use kc_tree::layout::Layout;
use kc_tree::rows::{ChoiceId, EntryId, VisibleId};

/// A node of the graph of what symbols need: a symbol, or what many of them need alike: what a menu asks of what is visible, what
/// an entry depends on, what a choice depends on itself, or the selection of a choice (our own). The context of a choice's entry
/// is what its members depend on: the mode too.
#[derive(Clone, Copy, PartialEq, Eq, Debug)]
pub enum Node {
    Symbol(SymId),
    Visible(VisibleId),
    Context(EntryId),
    Dependency(ChoiceId),
    Choice(ChoiceId),
}

// The numbers begin with the symbols, one for each name. Then come the menus with a `visible if` line, the entries, and twice the
// choices. Among the menus and the entries none comes first.
fn first_context(layout: &Layout) -> usize
    ensures { result ≡ spec.first_context layout.now }
{
    layout.symbols().len() + layout.visible_count()
}

fn first_dependency(layout: &Layout) -> usize
    ensures { result ≡ spec.first_dependency layout.now }
{
    first_context(layout) + layout.place_count()
}

fn first_choice(layout: &Layout) -> usize
    ensures { result ≡ spec.first_choice layout.now }
{
    first_dependency(layout) + layout.choices().len()
}

/// How many nodes there are.
pub fn node_count(layout: &Layout) -> usize
    ensures { result ≡ spec.node_count layout.now }
{
    first_choice(layout) + layout.choices().len()
}

/// The number of the node of what a menu asks of what is visible.
pub fn visible_number(layout: &Layout, id: VisibleId) -> u32
    requires { id.0 ≤ length layout.now.visibles.items }
    ensures { result ≡ spec.visible_number layout.now id.0 }
{
    layout.symbols().len() as u32 + id.0
}

/// The number of the node of what an entry depends on.
pub fn context_number(layout: &Layout, at: EntryId) -> u32
    requires { at.0 ≤ length layout.now.places.items }
    ensures { result ≡ spec.context_number layout.now at.0 }
{
    first_context(layout) as u32 + at.0
}

/// The number of the node of what a choice depends on itself.
pub fn dependency_number(layout: &Layout, id: ChoiceId) -> u32
    requires { id.0 < length layout.now.choices.items }
    ensures { result ≡ spec.dependency_number layout.now id.0 }
{
    first_dependency(layout) as u32 + id.0
}

/// The number of a choice's node.
pub fn choice_number(layout: &Layout, id: ChoiceId) -> u32
    requires { id.0 < length layout.now.choices.items }
    ensures { result ≡ spec.choice_number layout.now id.0 }
{
    first_choice(layout) as u32 + id.0
}

/// The node with a number.
pub fn node_of(layout: &Layout, number: u32) -> Node
    ensures { IsNode layout.now number result }
{
    let place = number as usize;
    let symbols = layout.symbols().len();
    if place < symbols {
        Node::Symbol(SymId(place))
    } else if place < first_context(layout) {
        Node::Visible(VisibleId((place - symbols) as u32))
    } else if place < first_dependency(layout) {
        Node::Context(EntryId((place - first_context(layout)) as u32))
    } else if place < first_choice(layout) {
        Node::Dependency(ChoiceId((place - first_dependency(layout)) as u32))
    } else {
        Node::Choice(ChoiceId((place - first_choice(layout)) as u32))
    }
}
