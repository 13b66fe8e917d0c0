// Worked cases of a guarded run: start, ask and report, a line each.
#![tactic(auto)]

mod asked;
mod fits;
mod made;
mod reported;
mod show;
mod walks;

fn asks(rt: &impl Print) {
    asked::starts_taken(rt);
    asked::starts_refused(rt);
    asked::proposals_at_0(rt);
    asked::proposals_at_1(rt);
    asked::proposals_at_15(rt);
    asked::entries_unsafe(rt);
    asked::entries_not_runnable(rt);
    asked::entries_at_0(rt);
    asked::asks_short(rt);
    asked::asks_unfit(rt);
    asked::asks_awaited(rt);
    asked::asks_used_up(rt);
    asked::asks_refused(rt);
    asked::substitutes(rt);
    asked::seven_tasks(rt);
}

fn reports(rt: &impl Print) {
    reported::readings_over(rt);
    reported::readings_before(rt);
    reported::misses_idle(rt);
    reported::misses_run(rt);
    reported::misses_above(rt);
    reported::misses_half(rt);
    reported::outcomes_at_0(rt);
    reported::outcomes_at_15(rt);
    reported::outcomes_of_seven(rt);
    reported::early(rt);
    reported::away(rt);
    reported::reports_unfit(rt);
    reported::reports_unasked(rt);
    reported::reports_refused(rt);
    reported::replaced(rt);
}

fn fitting(rt: &impl Print) {
    fits::ages(rt);
    fits::given(rt);
    fits::choices(rt);
    fits::choices_not_runnable(rt);
    fits::sums_hard(rt);
    fits::sums_soft(rt);
    fits::ticks(rt);
    fits::substitutions(rt);
    fits::last_ticks(rt);
    fits::places(rt);
    fits::last_tick(rt);
}

fn main(rt: HostRuntime) {
    asks(&rt);
    reports(&rt);
    fitting(&rt);
    walks::small(&rt);
    walks::large(&rt);
}
