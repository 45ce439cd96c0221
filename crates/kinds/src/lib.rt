#![tactic(auto)]

mod places;
mod ticks;

pub use places::{PlaceLatency, Places};
pub use ticks::{TickLatency, Ticks};

#[cfg(test)]
mod tests {
    use super::*;
    use kind::Kind;

    #[test]
    fn tick_range(rt: HostRuntime) {
        assert!(rt; Ticks::latency(100_000_000).is_ok());
        assert!(rt; Ticks::latency(-100_000_000).is_ok());
        assert!(rt; Ticks::latency(100_000_001).is_err());
        assert!(rt; Ticks::latency(-100_000_001).is_err());
    }

    #[test]
    fn place_range(rt: HostRuntime) {
        assert!(rt; Places::latency(0).is_ok());
        assert!(rt; Places::latency(999).is_ok());
        assert!(rt; Places::latency(-1).is_err());
        assert!(rt; Places::latency(1000).is_err());
    }

    #[test]
    fn tick_text(rt: HostRuntime) {
        let total = Ticks::sum(&Ticks::zero(), &Ticks::negated(&305));
        assert_eq!(rt; Ticks::text(&total).as_bytes(), b"-305".as_slice());
    }

    #[test]
    fn place_text(rt: HostRuntime) {
        let total = Places::sum(&990, &Places::negated(&85));
        assert_eq!(rt; Places::text(&total).as_bytes(), b"905".as_slice());
    }
}
