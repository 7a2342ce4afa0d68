//! What the answers of a desk's session come to, and whose rows they are of. Each law is the contract of a function that
//! does nothing.
ghost use Rattle.std.specs.Prelude.{◌≡◌, List, Option, Some};
ghost use Rattle.trace_types.specs.declared.request.Request.{Request};
ghost use Rattle.trace_types.specs.declared.reply.Reply.{Reply};
ghost use Rattle.tenant_desk.specs.Desks.{Desk};
ghost use Rattle.trace_session.specs.Answers.{AnswersEach};
ghost use Rattle.trace_session.specs.Lent.{TakesRequest};
ghost use Rattle.trace_session.specs.RunsThrough.{RunsThrough};
ghost use Rattle.trace_session.specs.Hubs.{Hub, IsHubOf, Owner, tenant_named};
ghost use Rattle.trace_session.specs.OwnLogs.{IsWitnessOf};
ghost use Rattle.trace_session.specs.Witnesses.{Witness};
ghost use Rattle.trace_types.specs.tenant.Limits.{Limits};
ghost use Rattle.trace_types.specs.text.Name.{Text};

/// The answers of a desk to the lines of a session, one after another, are the replies of a run from the desk's rows. The
/// desk then has the rows that the run leaves. A request that ran out of memory changes nothing.
pub fn reports_run()
    ensures { (old new : Desk) (requests : List (Option Request)) (replies : List Reply)
        → AnswersEach TakesRequest old requests replies new → RunsThrough old.tenant requests replies new.tenant }
{}

/// Each tenant of a hub has a log of its own. Two tenants whose names differ have two logs. So have two sessions whose first
/// lines named them: no rows of the one can be compared with rows of the other.
pub fn tenants_have_their_own_logs()
    ensures tenants { (names : List Text) (limits : Limits) (hub : Hub) (name other : Text) (one two : Owner) → IsHubOf names limits hub
        → tenant_named name hub ≡ Some one → tenant_named other hub ≡ Some two → one.log ≡ two.log → name ≡ other }
    ensures sessions { (names : List Text) (limits : Limits) (hub : Hub) (name other : Text) (first second : Witness) → IsHubOf names limits hub
        → IsWitnessOf hub name first → IsWitnessOf hub other second → first.began.log ≡ second.began.log → name ≡ other }
{}
