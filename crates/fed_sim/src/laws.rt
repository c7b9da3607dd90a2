// What holds of every run.
ghost use Rattle.std.specs.Prelude.{ℕ, List};
ghost use Rattle.fed_sim.specs.declared.outcome.Outcome.{Outcome};
ghost use Rattle.fed_sim.specs.declared.script.faults.ScriptError.{ScriptError};
ghost use Rattle.fed_sim.specs.declared.setup.Setup.{Setup};
ghost use Rattle.fed_sim.specs.declared.step.Step.{Step};
ghost use Rattle.fed_sim.specs.Calm.{CalmDelivers};
ghost use Rattle.fed_sim.specs.Headline.{Headline, TakesOnce};
ghost use Rattle.fed_sim.specs.Rounds.{AreRounds};
ghost use Rattle.fed_sim.specs.Running.{ComesOfRun, IsRun};
ghost use Rattle.fed_sim.specs.Script.{IsScript, IsNoScript};
ghost use Rattle.fed_sim.specs.Shape.{HoldsTogether};
ghost use Rattle.fed_sim.specs.World.{WorldState};

use fed_outbox::nothing_is_lost_on_the_way;

/// After every list of steps what a server took of another one is a prefix of what that one addressed to it, in order and each once, and
/// what counts as delivered was taken. Every request that reaches its server is taken whole, or gets the reply with 200 that its
/// transaction got before, or finds no memory; in the last two cases nothing is taken. Each event of a journal is stored in a room of its
/// server, and its destinations are just the other listed servers that are joined in the state before it in that room's graph.
///
/// Requests are taken so in each world that comes of a run, within rounds of calm too.
pub fn runs_deliver()
    ensures headline { (setup : Setup) (steps : List Step) (replies : List Outcome) (w : WorldState) → IsRun setup steps replies w → Headline setup steps replies w }
    ensures takes { (w : WorldState) → ComesOfRun w → TakesOnce w }
{
    nothing_is_lost_on_the_way();
}

/// From each world that comes of a run, whose moment is an hour before the greatest at most: after as many calm rounds as a way takes, in which no
/// memory was refused, all that is addressed there was taken and counts as delivered. A way takes a round for a transaction that is unanswered, and
/// then one for each 50 events and each 100 ephemeral data units, which go together.
pub fn calm_delivers()
    ensures { (rounds : ℕ) (old new : WorldState) → ComesOfRun old → AreRounds rounds old new → CalmDelivers rounds old new }
{
    nothing_is_lost_on_the_way();
}

/// In each world that comes of a run there are as many servers as names. Each stands at its own place, and has a way for each name, a room for
/// each id, and an inbox that knows just these rooms. What the outbox for a destination has accepted, and what waits before it, is what the
/// journal places for it; and what is stored in a room is a graph with the verdicts of the rules.
pub fn worlds_hold_together()
    ensures { (w : WorldState) → ComesOfRun w → HoldsTogether w }
{
    nothing_is_lost_on_the_way();
}

/// No text is both a script and none: where `read_script` gives a setup and steps, it could not have told a line, and the other way round.
pub fn scripts_are_told_apart()
    ensures { (text : List ℕ) (setup : Setup) (steps : List Step) (line : ℕ) (fault : ScriptError) → IsScript text setup steps → IsNoScript text line fault → ⊥ }
{}
