ghost use mir.Syntax.{Dict};
ghost use Rattle.bench.specs.contracts.bench.Bench.{the_row};
ghost use Rattle.bench.specs.contracts.bench.host.BenchHost.TheImpl.{ghosts};
ghost use Rattle.hosts.specs.contracts.loss.Loss.{the_row as loss_row};
ghost use Rattle.hosts.specs.contracts.loss.LossHost.TheImpl.{ghosts as over_loss};

use crate::bench::Bench;

// By the names that Rattle makes: a quote of an impl speaks of one dictionary, and these clauses of each.
// The bench host claims to keep the rules, so that it owes the laws; and so does a loss over it.
pub fn claims(_host: &Bench)
    ensures alone { ghosts.lawful }
    ensures under_loss { (c : Dict) → (over_loss the_row ghosts c).lawful }
    ensures under_two { (c d : Dict) → (over_loss (loss_row the_row) (over_loss the_row ghosts c) d).lawful }
{}
