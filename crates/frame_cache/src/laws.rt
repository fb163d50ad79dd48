//! A law of caches. It is the contract of a function that does nothing.
ghost use Rattle.std.specs.Prelude.{◌≡◌, ◌++◌, List};
ghost use Rattle.reg_model.specs.declared.answer.Receipt.{Receipt};
ghost use Rattle.word_rule.specs.declared.log.Log.{Log};
ghost use Rattle.frame_cache.specs.CacheData.{CacheData};
ghost use Rattle.frame_cache.specs.Cached.{FitsCaller};

/// A cache goes on to fit its caller while that one's own receipts come, by whatever calls.
pub fn caches_go_on_to_fit()
    ensures { (c : CacheData) (v w : Log) (more : List Receipt)
        → w.receipts.own ≡ v.receipts.own ++ more → FitsCaller c v → FitsCaller c w }
{}
