use crate::Maker;

impl Maker for Box<dyn Maker> {
    ghost cycle = { λ maker. (Maker-box maker).cycle maker.value };

    ghost place = { λ maker. (Maker-box maker).place maker.value };

    fn next(&mut self) -> u64 {
        (**self).next()
    }

    fn stands(&self) {
        (**self).stands()
    }

    fn restart(&mut self) {
        (**self).restart()
    }
}
