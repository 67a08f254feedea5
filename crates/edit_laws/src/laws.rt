//! Laws about what is kept of a derivation list, each the contract of a function without
//! parameters.

ghost use Rattle.edit_laws.specs.EditEffects.{EditsTakeBounds, EditsTakeLinks, EditsBringBounds};
ghost use Rattle.edit_laws.specs.EditEffects.{EditsBringLinks, EditsWithdrawNodes};
ghost use Rattle.edit_laws.specs.EditEffects.{ShownFormsFollowEdits};
ghost use Rattle.edit_laws.specs.KeptListLaws.{KeptIsDerived, KeptIsWhatRestsOnNothingTaken};
ghost use Rattle.edit_laws.specs.KeptListLaws.{FollowedStands, NamesRenumber, NewBaseIsWhole};

/// What is kept of a derivation list of the old network is one of the new network: each kept node
/// is by its rule there, whichever of the seven that is.
pub fn law_kept_is_derived()
    ensures { KeptIsDerived }
{}

/// Exactly the nodes that rest on nothing taken away are kept, in their order, each with the new
/// numbers of its premises, its bound or link and its edge.
pub fn law_kept_rests_on_nothing_taken()
    ensures { KeptIsWhatRestsOnNothingTaken }
{}

/// What stands on the old network stands on the edited one when it has followed the edit: the kept
/// nodes, then the new base nodes, and the table of these.
pub fn law_followed_stands()
    ensures { FollowedStands }
{}

/// The numbers that names have in the edited network are a renumbering: what has a number there
/// stands under it, with the same numbers and between the same points. That requires nothing of the
/// edit.
pub fn law_names_renumber()
    ensures { NamesRenumber }
{}

/// The base nodes of new bounds and links are base nodes of the new network, and with those that
/// are kept all of them. That requires nothing of the edit.
pub fn law_new_base_is_whole()
    ensures { NewBaseIsWhole }
{}

/// Exactly the bounds that the edit drops or sets, and those that stand in the new network with
/// another number, have no number there.
pub fn law_edits_take_bounds()
    ensures { EditsTakeBounds }
{}

/// Exactly the links that the edit drops or sets, and those that stand in the new network with
/// other durations, have no number there.
pub fn law_edits_take_links()
    ensures { EditsTakeLinks }
{}

/// Exactly the bounds that the edit adds or sets, and those that stood in the old network with
/// another number, are new.
pub fn law_edits_bring_bounds()
    ensures { EditsBringBounds }
{}

/// Exactly the links that the edit adds or sets, and those that stood in the old network with other
/// durations, are new.
pub fn law_edits_bring_links()
    ensures { EditsBringLinks }
{}

/// Exactly the nodes of a derivation list that rest on a bound or a link that the edit takes away
/// are not kept.
pub fn law_edits_withdraw_nodes()
    ensures { EditsWithdrawNodes }
{}

/// The shown form of what an edit makes of a network has the parts of what the edit makes of its
/// shown form. So the laws about what edits take, bring and withdraw are about shown forms too.
pub fn law_shown_forms_follow_edits()
    ensures { ShownFormsFollowEdits }
{}
