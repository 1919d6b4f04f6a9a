//! Numbers that look random.

use due_model::config::Choices;

/// Numbers that look random: a linear congruential generator, of which the high bits count.
#[derive(Clone, Copy, Debug)]
pub(crate) struct Numbers {
    pub(crate) state: u64,
}

impl Numbers {
    /// The next number.
    pub(crate) fn next(&mut self) -> u64 {
        self.state = self
            .state
            .wrapping_mul(6_364_136_223_846_793_005)
            .wrapping_add(1_442_695_040_888_963_407);
        self.state >> 33
    }

    /// A bit of the next number.
    fn bit(&mut self) -> bool {
        self.next() % 2 == 1
    }

    /// Whose rules decide: this project's, or drawn field by field.
    pub(crate) fn choices(&mut self) -> Choices {
        if self.bit() {
            return Choices::own();
        }
        Choices {
            host_down: self.bit(),
            host_repeats: self.bit(),
            host_dep: self.bit(),
            nobody: self.bit(),
            told: self.bit(),
            reset_wait: self.bit(),
            delay: self.bit(),
            dep_pending: self.bit(),
            period_wait: self.bit(),
            downtime_wait: self.bit(),
            esc_other: self.bit(),
            at_results: self.bit(),
            order: self.bit(),
            contact_none: self.bit(),
            text: self.bit(),
        }
    }
}
