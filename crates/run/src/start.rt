// Outcomes 1 to 4, in that order.
ghost use Rattle.std.specs.Prelude.{◌≡◌};
ghost use Rattle.tables.specs.declared.Sort.TheVariants.{Values, Identities};
ghost use Rattle.tables.specs.Lending.{seen};
ghost use Rattle.rules.specs.State.{positions};
ghost use Rattle.rules.specs.Start.{budget_fits, values_hold, identities_hold, kept_at_start, tables_at_start};
ghost use Rattle.rules.specs.Start.{starts as starts_by};
ghost use Rattle.phases.specs.Told.{state_seen};
ghost use Rattle.run.specs.Told.{held_of, started_of};

use crate::Early;
use expressions::constraints::constraint_at;
use program::blocks::read_program;
use statements::identities::same_now;
use tables::kept::{kept_count, position_at};
use tables::{Sort, View};

// Every kept value constraint reads and its required parts hold; or the position of the first that does not.
fn values_hold(program: &[i32], t: &View<'_>) -> Result<(), usize>
    ensures { result ≡ held_of (values_hold program.now (seen t.now) (positions t.now.constraints.now Values)) }
{
    let n = kept_count(t.constraints, Sort::Values);
    for i in 0..n {
        let position = position_at(t.constraints, Sort::Values, i);
        let statement = words::part_from(program, position);
        match constraint_at(t, words::part_from(statement, 1)) {
            Err(_) => {
                return Err(position);
            }
            Ok(parts) => {
                if !parts.required {
                    return Err(position);
                }
            }
        }
    }
    Ok(())
}

// Every kept identity holds; or the position of the first that does not.
fn identities_hold(program: &[i32], t: &View<'_>) -> Result<(), usize>
    ensures { result ≡ held_of (identities_hold program.now (seen t.now) (positions t.now.constraints.now Identities)) }
{
    let n = kept_count(t.constraints, Sort::Identities);
    for i in 0..n {
        let position = position_at(t.constraints, Sort::Identities, i);
        let statement = words::part_from(program, position);
        match same_now(t, statement) {
            Err(_) => {
                return Err(position);
            }
            Ok(_) => {}
        }
    }
    Ok(())
}

// "a budget of 0 to 1,000,000"
pub fn budget_fits(budget: i32) -> bool
    ensures { result ≡ budget_fits budget }
{
    words::number(budget) <= 1000000
}

// Outcome 4: values before identities.
fn holds_at_start(program: &[i32], t: &View<'_>) -> Result<(), Early>
    ensures { result ≡ started_of (kept_at_start program.now (state_seen t.now)) }
{
    match values_hold(program, t) {
        Err(place) => Err(Early { number: 4, place }),
        Ok(_) => match identities_hold(program, t) {
            Err(place) => Err(Early { number: 4, place }),
            Ok(_) => Ok(()),
        },
    }
}

// Outcome 3, and then 4.
pub fn fits_at_start(program: &[i32], t: &View<'_>) -> Result<(), Early>
    ensures { result ≡ started_of (tables_at_start program.now (state_seen t.now)) }
{
    if !fit::environment_fits(t.environment, t.heap) {
        return Err(Early {
            number: 3,
            place: 0,
        });
    }
    if !fit::heap_fits(t.heap) {
        return Err(Early {
            number: 3,
            place: 1,
        });
    }
    if !program::places::constraints_stand(program, t.constraints) {
        return Err(Early {
            number: 3,
            place: 2,
        });
    }
    holds_at_start(program, t)
}

// Whether a run may begin.
pub fn starts(program: &[i32], t: &View<'_>, budget: i32) -> Result<(), Early>
    ensures { result ≡ started_of (starts_by program.now budget (state_seen t.now)) }
{
    if !fit::are_sized(t.environment, t.heap, t.constraints) {
        return Err(Early {
            number: 1,
            place: 0,
        });
    }
    if !budget_fits(budget) {
        return Err(Early {
            number: 1,
            place: 0,
        });
    }
    match read_program(program) {
        Err(place) => Err(Early { number: 2, place }),
        Ok(_) => fits_at_start(program, t),
    }
}
