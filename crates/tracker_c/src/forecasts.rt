// The cash forecast for C and Rust callers.
ghost use Rattle.std.specs.Prelude.{◌≡◌};
ghost use Rattle.cash.specs.Cash.{forecast_of};

use cash::CashForecast;

// The cents that an account pays and receives on a release date by a run of claim records, and receive less pay, each exact as a double. An
// account above 15, a date that is none, or a cut or bad record gets 18, a sum past 9,007,199,254,740,992 gets 19, each with three zeros.
#[unsafe(no_mangle)]
pub extern "C" fn claim_tracker_forecast(claims: &[u8], account: u32, date: u32) -> CashForecast
    ensures { result ≡ forecast_of claims.now account date }
{
    tracker::forecasts::claim_tracker_forecast(claims, account, date)
}
