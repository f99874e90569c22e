//! Whole runs: a console from its beginning through any list of lines.
ghost use Rattle.std.specs.Prelude.{◌≡◌};
ghost use Rattle.console.specs.Exchanges.{Exchanged, RanExchanges};
ghost use Rattle.console.specs.States.{state_of, below, fresh};

use crate::console::Console;
use crate::exchange::Exchange;
use capability::Source;

/// Answers lines in turn on a fresh console over a source, each into its own area, and hands the console back.
pub fn answer_lines<S: Source>(source: S, exchanges: &mut [Exchange]) -> Console<S>
    ensures below { below result ≡ source }
    ensures ran { RanExchanges (S.Source.meaning source) exchanges.old exchanges.new (state_of result) }
{
    answer_each(Console::new(source), exchanges)
}

/// Answers lines in turn.
fn answer_each<S: Source>(mut console: Console<S>, exchanges: &mut [Exchange]) -> Console<S>
    requires { state_of console ≡ fresh }
    ensures below { below result ≡ below console }
    ensures ran { RanExchanges (S.Source.meaning (below console)) exchanges.old exchanges.new (state_of result) }
{
    for exchange in exchanges.iter_mut() {
        console = answer_exchange(console, exchange);
    }
    console
}

/// Answers one line.
fn answer_exchange<S: Source>(console: Console<S>, exchange: &mut Exchange) -> Console<S>
    ensures below { below result ≡ below console }
    ensures exchanged { Exchanged (S.Source.meaning (below console)) (state_of console) exchange.old exchange.new (state_of result) }
{
    let (console, answer) = console.answer(exchange.line.as_slice(), &mut exchange.area);
    exchange.answer = answer;
    console
}
