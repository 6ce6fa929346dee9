//! The facts about a choice.

ghost use Rattle.std.specs.Prelude.{◌≡◌, [], ◌∷◌, IfOk, None, OnOk, option_map, slice_index_or};
ghost use Rattle.kc_outcome.specs.Explanations.{choice_entry};
ghost use Rattle.kc_language.specs.ConfigFile.{place_at};
ghost use Rattle.kc_language.specs.Values.{ChoicePlace};
ghost use Rattle.kc_tree.specs.Layouts as see;
ghost use Rattle.kc_input.specs.ShownView.{location_of};
ghost use Rattle.kc_user.specs.PartsOfConfigFile.{member_place};
ghost use Rattle.kc_values.specs.User.{given_in};
ghost use Rattle.kc_explain.specs.ChoiceFacts as spec;
ghost use Rattle.kc_explain.specs.FactLists as told;
ghost use Rattle.kc_explain.specs.FactLists.{Adds};
ghost use Rattle.kc_explain.specs.LineViews.{AreAt, line_view};

use crate::fact::Fact;
use crate::facts::{add_parts, add_prompt_at, given_at};
use crate::lines::{Line, choice_entry, first_line};
use crate::parts::{dependency_parts, is_n};
use crate::stated::{Stated, add_one, add_stated_at};
use crate::teller::Teller;
use kc_expr::expression::{SymId, Tri};
use kc_input::shown::InputLine;
use kc_input::user_input::UserInput;
use kc_tree::layout::Layout;
use kc_tree::rows::{ChoiceId, EntryId};
use kc_user::value::UserValue;
use std::alloc::{AllocError, Global};

// ---- What the user chose

// The member of a choice among the members that were chosen, if there is one.
fn chosen_in(members: &[Option<SymId>], choice: usize) -> Option<SymId>
    ensures { result ≡ slice_index_or members.now choice None }
{
    match members.get(choice) {
        Some(member) => *member,
        None => None,
    }
}

// The member that was chosen last for a choice, if there is one.
fn chosen_member(input: &UserInput<'_>, choice: usize) -> Option<SymId>
    ensures { member_place result ≡ place_at input.now.places (ChoicePlace choice) }
{
    chosen_in(input.user().choices(), choice)
}

// Whether a user value is y.
fn is_yes(given: Option<&UserValue>) -> bool
    ensures { result ≡ spec.is_yes_given (given_in given.entry) }
{
    match given {
        Some(UserValue::Tri(Tri::Y)) => true,
        _ => false,
    }
}

// The line that chose a member, if it is the last line of that member.
fn choosing_line<'t>(input: &'t UserInput<'_>, member: Option<SymId>) -> Option<InputLine<'t>>
    ensures { option_map location_of result ≡ spec.choosing_line input.now (member_place member) }
{
    match member {
        Some(chosen) => {
            if is_yes(given_at(input, chosen)) {
                input.plain_line(chosen)
            } else {
                None
            }
        }
        None => None,
    }
}

// ---- What is selected

// The members of a choice.
fn members_of(layout: &Layout, choice: ChoiceId) -> &[SymId]
    ensures { result.now ≡ spec.members_in layout.now choice.0 }
{
    match layout.choice(choice) {
        Some(row) => &row.members,
        None => &[],
    }
}

// Appends what these members' prompts are worth, up to the first whose prompts are not n.
fn add_members<'t>(
    t: &Teller<'t, '_, '_>,
    members: &[SymId],
    facts: &mut Vec<Fact<'t>>,
) -> Result<(), AllocError>
    ensures { OnOk result (Adds t.now facts.old.items facts.new.items (spec.members_told t.now members.now)) }
{
    for member in members {
        let fact = Fact::Member {
            symbol: *member,
            value: t.solved.prompts_condition(*member),
        };
        if add_one(t, Some(fact), facts)? {
            return Ok(());
        }
    }
    Ok(())
}

// Appends what the choice that the entry begins selects by its defaults.
fn add_preset<'t>(
    t: &Teller<'t, '_, '_>,
    choice: ChoiceId,
    entry: EntryId,
    facts: &mut Vec<Fact<'t>>,
) -> Result<(), AllocError>
    ensures { OnOk result (Adds t.now facts.old.items facts.new.items (spec.preset_told t.now choice.0 entry)) }
{
    if add_stated_at(t, Stated::Members(choice), entry, facts)? {
        return Ok(());
    }
    add_members(t, members_of(t.layout, choice), facts)
}

// Appends what the prompts of a chosen member are worth. Returns whether it is selected.
fn add_chosen<'t>(
    t: &Teller<'t, '_, '_>,
    choice: ChoiceId,
    member: SymId,
    facts: &mut Vec<Fact<'t>>,
) -> Result<bool, AllocError>
    ensures facts { OnOk result (Adds t.now facts.old.items facts.new.items (spec.member_told t.now member ∷ [])) }
    ensures shown { IfOk result (λ shown. shown ≡ spec.is_shown_member t.now choice.0 member) }
{
    let value = t.solved.prompts_condition(member);
    facts.push(Fact::Member {
        symbol: member,
        value,
    })?;
    Ok(t.layout.is_member(choice, member) && !is_n(value))
}

// Appends what the choice that the entry begins selects.
fn add_selected<'t>(
    t: &Teller<'t, '_, '_>,
    choice: ChoiceId,
    entry: EntryId,
    chosen: Option<SymId>,
    facts: &mut Vec<Fact<'t>>,
) -> Result<(), AllocError>
    ensures { OnOk result (Adds t.now facts.old.items facts.new.items (spec.selected_told t.now choice.0 entry (member_place chosen))) }
{
    match chosen {
        Some(member) => {
            if add_chosen(t, choice, member, facts)? {
                Ok(())
            } else {
                add_preset(t, choice, entry, facts)
            }
        }
        None => add_preset(t, choice, entry, facts),
    }
}

// Appends the member that was chosen, and what the choice that the entry begins selects.
fn add_selection<'t>(
    t: &Teller<'t, '_, '_>,
    choice: ChoiceId,
    entry: EntryId,
    facts: &mut Vec<Fact<'t>>,
) -> Result<(), AllocError>
    ensures { OnOk result (Adds t.now facts.old.items facts.new.items (spec.selection_told t.now choice.0 entry)) }
{
    let member = chosen_member(t.input, choice.0 as usize);
    facts.push(Fact::Chosen {
        at: choosing_line(t.input, member),
        choice: choice.0 as usize,
        member,
    })?;
    add_selected(t, choice, entry, member, facts)
}

// ---- The choice

// Appends the mode of a choice, and the parts of what the entry that begins it depends on.
fn add_mode<'t>(
    alloc: Global,
    t: &Teller<'t, '_, '_>,
    entry: EntryId,
    line: Line<'t>,
    mode: Tri,
    facts: &mut Vec<Fact<'t>>,
) -> Result<(), AllocError>
    ensures { OnOk result (Adds t.now facts.old.items facts.new.items (spec.mode_told t.now entry (line_view line.entry) mode)) }
{
    let parts = dependency_parts(alloc, t.layout, entry)?;
    facts.push(Fact::Mode { line, value: mode })?;
    add_parts(t, &parts, facts)
}

// Appends the facts about the choice that the entry begins with this line.
fn add_choice_by<'t>(
    alloc: Global,
    t: &Teller<'t, '_, '_>,
    choice: ChoiceId,
    entry: EntryId,
    line: Line<'t>,
    facts: &mut Vec<Fact<'t>>,
) -> Result<(), AllocError>
    ensures { OnOk result (Adds t.now facts.old.items facts.new.items (spec.choice_told t.now choice.0 entry (line_view line.entry))) }
{
    let mode = t.solved.mode(choice.0 as usize);
    add_mode(alloc, t, entry, line, mode, facts)?;
    add_prompt_at(alloc, t, entry, facts)?;
    if is_n(mode) {
        Ok(())
    } else {
        add_selection(t, choice, entry, facts)
    }
}

// Appends the facts about the choice that the entry begins.
fn add_choice_at<'t>(
    alloc: Global,
    t: &Teller<'t, '_, '_>,
    choice: ChoiceId,
    entry: EntryId,
    facts: &mut Vec<Fact<'t>>,
) -> Result<(), AllocError>
    requires { AreAt t.now.layout.now (entry ∷ []) (choice_entry (see.statements_in t.now.layout.now) choice.0) }
    ensures { OnOk result (Adds t.now facts.old.items facts.new.items (told.choice_of t.now choice.0)) }
{
    match first_line(t.layout, entry) {
        Some(line) => add_choice_by(alloc, t, choice, entry, line, facts),
        None => Ok(()),
    }
}

/// Appends the facts about a choice. The only error is that memory runs out.
pub(crate) fn add_choice<'t>(
    alloc: Global,
    t: &Teller<'t, '_, '_>,
    choice: ChoiceId,
    facts: &mut Vec<Fact<'t>>,
) -> Result<(), AllocError>
    ensures { OnOk result (Adds t.now facts.old.items facts.new.items (told.choice_of t.now choice.0)) }
{
    match choice_entry(t.layout, choice.0 as usize) {
        Some(entry) => add_choice_at(alloc, t, choice, entry, facts),
        None => Ok(()),
    }
}
