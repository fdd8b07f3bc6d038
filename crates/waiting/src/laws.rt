// The laws of the queues, as the contract of one call.
ghost use Rattle.waiting.specs.Laws.{LeftEverywhere, OthersKeepOrder, JoinsBehind};
ghost use Rattle.waiting.specs.Runs.{EarlierIsAhead, FirstComeFirstServed};

// Whatever waits: who leaves is in no queue, the others keep their order, and who joins stands behind them;
// and through any run of joins, departures and releases, who joined first is served first.
pub fn queues_keep_order<X: Copy>()
    ensures left { LeftEverywhere X }
    ensures others { OthersKeepOrder X }
    ensures behind { JoinsBehind X }
    ensures earlier { EarlierIsAhead }
    ensures served { FirstComeFirstServed X }
{}
