//! What the definitions say of some command lines.

ghost use Rattle.std.specs.Prelude.{◌≡◌, ℕ, List, [], ◌∷◌, ◌++◌, if◌then◌else◌, Some, None, codes, true};
ghost use Rattle.std.specs.List.{list_all};
ghost use Rattle.clap.specs.ValueTests.{is_unsigned_in};
ghost use Rattle.clap.specs.Walk.{Text};
ghost use Rattle.clap.specs.Words.{is_simple_and_free};
ghost use Rattle.command_line.specs.Command.{flowdir_app};
ghost use Rattle.command_line.specs.CommandLines.{Given, IsAskable, Lists, as_used, asked, default_plan, faults, flows_plan};
ghost use Rattle.command_line.specs.CommandLines.{line, line_of, tests};
ghost use Rattle.command_line.specs.Words.{decimal, reads};
ghost use Rattle.command_line.specs.declared.plan.Mode.{Mode};
ghost use Rattle.command_line.specs.declared.plan.Plan.{Plan};

use clap::error::ErrorKind;

/// What holds of the command line, as laws of its definitions. It does nothing.
///
/// The command is one of which `clap` states exactly what it takes. A line of options asks for the
/// plan of the texts that the mode uses, whatever these and the others are; a plan that fits has a
/// line that asks for it; and what is read has its default wherever its mode does not use the option.
pub fn command_line_laws()
    ensures simple { is_simple_and_free flowdir_app ≡ true }
    ensures alone { reads (codes "serve" ∷ []) ≡ Some default_plan }
    ensures alone_flows { reads (codes "flows" ∷ []) ≡ Some flows_plan }
    ensures spaced { reads (codes "serve" ∷ codes "--items" ∷ codes "3" ∷ [])
        ≡ Some (record default_plan { items = 3 }) }
    ensures any_items { (t : List ℕ) → reads (codes "serve" ∷ (codes "--items=" ++ t) ∷ [])
        ≡ (if is_unsigned_in 1 16 t
        then Some (record default_plan { items = decimal t }) else None) }
    ensures any_line { (mode : Mode) (g : Given) (lists : Lists) → reads (line mode g lists)
        ≡ (if list_all (λ b. b) (tests g lists) then asked mode g lists else None) }
    ensures round_trip { (p : Plan) → IsAskable p → reads (line_of p) ≡ Some (as_used p p.mode) }
    ensures unused { (words : List Text) (p : Plan) → reads words ≡ Some p → as_used p p.mode ≡ p }
    ensures no_words { faults [] ≡ ErrorKind.MissingRequiredArgument ∷ [] }
    ensures every_none { faults (codes "serve" ∷ codes "--every=0" ∷ [])
        ≡ ErrorKind.ValueValidation ∷ [] }
    ensures twice { faults (codes "serve" ∷ codes "--items=3" ∷ codes "--items=3" ∷ [])
        ≡ ErrorKind.ArgumentConflict ∷ [] }
{}
