// Runs the thin calls over references: the demand of table A of document 01 at some lengths, demands at the edge of 64 bits, and the worked
// run of table A on a record that is lent for each tick.
#![tactic(auto)]

use dispatch::Answer;
use lent::TaskLoad;
use records::Dispatcher;
use std::io::{self, Write};

// A line: the length t and the demand there, or the word that it does not fit.
// Stays a function: a line of two values, where a Display would want a struct made of them for it alone.
fn print_demand<W: Write>(out: &mut W, t: u64, demand: Option<u64>) -> io::Result<()> {
    match demand {
        Some(sum) => writeln!(out, "{t} {sum}"),
        None => writeln!(out, "{t} does not fit"),
    }
}

// Table A under its least counts: 10/8 with budget 2 + 1, 20/18 with budget 9 + 3. A budget of 0 demands nothing.
fn table_a() -> [TaskLoad; 32] {
    let none = TaskLoad {
        spacing: 1,
        deadline: 1,
        budget: 0,
    };
    let mut tasks = [none; 32];
    tasks[0] = TaskLoad {
        spacing: 10,
        deadline: 8,
        budget: 3,
    };
    tasks[1] = TaskLoad {
        spacing: 20,
        deadline: 18,
        budget: 12,
    };
    tasks
}

// The demands of table A, then those at the edge of 64 bits.
// Stays a function: it makes what it prints, line by line.
fn print_demands<W: Write>(out: &mut W) -> io::Result<()> {
    let mut tasks = table_a();
    for t in [7, 8, 17, 18, 20] {
        print_demand(out, t, lent::demand_of(tasks, t))?;
    }
    // One job of the largest budget fits; with one tick more, or with a second job, it does not.
    tasks[0] = TaskLoad {
        spacing: 10,
        deadline: 8,
        budget: u64::MAX,
    };
    print_demand(out, 17, lent::demand_of(tasks, 17))?;
    print_demand(out, 18, lent::demand_of(tasks, 18))?;
    tasks[31] = TaskLoad {
        spacing: 0,
        deadline: 8,
        budget: 1,
    };
    print_demand(out, 17, lent::demand_of(tasks, 17))
}

// Table A ready to run: 10/8 with one phase 2+1 in one piece, 20/18 with one phase 9+1 in three.
fn ready_a() -> Dispatcher {
    let mut d = Dispatcher::empty();
    d.tasks = 2;
    d.spacing[0] = 10;
    d.since[0] = 10;
    d.deadline[0] = 8;
    d.phases[0] = 1;
    d.work[0] = 2;
    d.cost[0] = 1;
    d.counts[0] = 1;
    d.spacing[1] = 20;
    d.since[1] = 20;
    d.deadline[1] = 18;
    d.phases[1] = 1;
    d.work[8] = 9;
    d.cost[8] = 1;
    d.counts[8] = 3;
    d
}

// Both tasks ask in tick 0; task 1 asks again in tick 9, too early, and in tick 10.
fn asked(tick: u64) -> u32 {
    match tick {
        0 => 3,
        9 | 10 => 1,
        _ => 0,
    }
}

// A line: the tick, the masks let in and turned away, the task that ran with its phase and piece, and whether its job finished.
// Stays a function: it prints other parts of an answer than `replay` does, so no one Display of it would serve.
fn print_tick<W: Write>(out: &mut W, tick: u64, a: Answer) -> io::Result<()> {
    write!(
        out,
        "{tick} {} {} {} {} {}",
        a.admitted, a.away, a.task, a.phase, a.piece
    )?;
    if a.finished {
        write!(out, " finished")?;
    }
    writeln!(out)
}

// The worked run of table A, tick by tick.
// Stays a function: it makes what it prints, line by line.
fn print_run<W: Write>(out: &mut W) -> io::Result<()> {
    let mut dispatcher = ready_a();
    for tick in 0u64..18 {
        let t = lent::ticked(dispatcher, asked(tick), false);
        print_tick(out, tick, t.answer)?;
        dispatcher = t.next;
    }
    Ok(())
}

fn main(rt: HostRuntime) -> io::Result<()> {
    let mut out = rt.stdout();
    print_demands(&mut out)?;
    print_run(&mut out)?;
    out.flush()
}
