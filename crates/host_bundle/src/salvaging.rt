// Salvaging a run bundle cut short (2026-11 of document 02), for the bench host.
ghost use Rattle.host_bundle.specs.Salvaging.{SalvagesIn};

use base_numbers::put_record;
use base_rules::Refusal;
use bundle_salvage::salvage;

// 0, the new bundle, and what is told of it; or 256 plus 21, 30 to 33 or 38.
pub fn skarrowith_bundle_salvage(damaged: &[u8], out: &mut [u8], told: &mut [u8]) -> u32
    ensures { SalvagesIn damaged.now out.old told.old result out.new told.new }
{
    if told.len() < 32 {
        return Refusal::TOO_FEW_PLACES.told();
    }
    match salvage(damaged, out) {
        Ok(s) => {
            let words = [
                s.kept as u64,
                s.dropped as u64,
                s.rule as u64,
                s.filled as u64,
            ];
            put_record(told, b"", &words, b"");
            0
        },
        Err(refused) => refused.told(),
    }
}
