//! What holds of every run of a yard, whatever the order of the calls.
ghost use Rattle.std.specs.Prelude.{ℕ, ◌≡◌, ◌≢◌, ◌<◌, ◌↔◌, ◌∷◌, All, List, [], length};
ghost use Rattle.fp_yard.specs.declared.events.Event.{Event};
ghost use Rattle.fp_yard.specs.declared.events.EventKind.TheVariants.{Arrives, Departs};
ghost use Rattle.fp_yard.specs.declared.events.LineStage.TheVariants.{Done, Rolling};
ghost use Rattle.fp_yard.specs.declared.events.YardPlace.TheVariants.{Aboard, At};
ghost use Rattle.fp_yard.specs.Choices.{IsChosen};
ghost use Rattle.fp_yard.specs.Events.{CanDepart, IsAllowed, IsLegal, LeadsTo, events_of, stage_of};
ghost use Rattle.fp_yard.specs.Faults.{IsAtTail};
ghost use Rattle.fp_yard.specs.Places.{place_of};
ghost use Rattle.fp_yard.specs.Schedules.{IsFreight, IsSound, Schedule, end_of, journey_at};

/// That whatever events are offered, in whatever order, those that were accepted are a legal
/// history. The call does nothing.
pub fn calls_lead_to_legal_histories()
    ensures { (s : Schedule) (calls after : List Event) → LeadsTo s [] calls after
        → IsLegal s after }
{}

/// That the freight aboard a rolling line is exactly its own, after each legal history. The call
/// does nothing.
pub fn lines_carry_their_freight()
    ensures { (s : Schedule) (h : List Event) (line k : ℕ) → IsSound s → IsLegal s h
        → stage_of h line ≡ Rolling → (place_of s h k ≡ Aboard line) ↔ IsFreight s line k }
{}

/// That after a legal history some event is allowed while a line isn't done, and that each shipment
/// is at its journey's end where all lines are. The call does nothing.
pub fn runs_end_at_destinations()
    ensures goes_on { (s : Schedule) (h : List Event) (line : ℕ) → IsSound s
        → line < length s.tails → stage_of h line ≢ Done → (e : Event) × IsAllowed s h e }
    ensures ends { (s : Schedule) (h : List Event) (k : ℕ) → IsSound s → k < length s.journeys
        → ((line : ℕ) → line < length s.tails → stage_of h line ≡ Done)
        → place_of s h k ≡ At (end_of s (journey_at s k)) }
{}

/// That whether a departure is allowed depends on the line's stage and on who is at its tail alone:
/// after two legal histories that agree on these, both allow it or neither does. The call does
/// nothing.
pub fn departures_depend_on_the_tail()
    ensures { (s : Schedule) (g h : List Event) (line : ℕ) → IsSound s → IsLegal s g → IsLegal s h
        → stage_of g line ≡ stage_of h line
        → ((k : ℕ) → IsAtTail s g line k ↔ IsAtTail s h line k)
        → CanDepart s g line ↔ CanDepart s h line }
{}

/// That events which the draws from a seed choose are a legal history. The call does nothing.
pub fn chosen_runs_are_legal()
    ensures { (s : Schedule) (seed : ℕ) (h : List Event) → IsChosen s seed h → IsLegal s h }
{}

/// That where no event is allowed any more, as `drive` leaves a yard, every line is done, and the
/// history has exactly two events of each line, its departure and then its arrival, and no others.
/// The call does nothing.
pub fn whole_runs_have_two_events_for_each_line()
    ensures done { (s : Schedule) (h : List Event) (line : ℕ) → IsSound s
        → ((e : Event) → IsAllowed s h e → ⊥) → line < length s.tails → stage_of h line ≡ Done }
    ensures two { (s : Schedule) (h : List Event) (line : ℕ) → IsSound s → IsLegal s h
        → ((e : Event) → IsAllowed s h e → ⊥) → line < length s.tails → events_of line h
        ≡ record { line = line; kind = Departs } ∷ record { line = line; kind = Arrives } ∷ [] }
    ensures others { (s : Schedule) (h : List Event) → IsLegal s h
        → All (λ (e : Event). e.line < length s.tails) h }
{}
