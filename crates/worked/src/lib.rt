// Worked examples of opening, judging and receiving, as tests. They stand in a crate of
// their own, since a crate with tests is proved twice.
#![tactic(auto)]

#[cfg(test)]
mod framings;
#[cfg(test)]
mod receivers;

// Ensembles that open, and ones that are refused, with number and place.
#[cfg(test)]
mod ensembles {
    use framing::framing::Framing;
    use framing::verdict::Verdict;
    use pd0::ensemble::Ensemble;
    use pd0::judging::Pd0;
    use pd0::kind::Kind;
    use pd0::stored::checksum;

    // Writes a 16-bit number, low byte first, where there is room.
    fn put(bytes: &mut [u8], at: usize, value: u16) {
        if bytes.len() < 2 || at > bytes.len() - 2 {
            return;
        }
        bytes[at..at + 2].copy_from_slice(&value.to_le_bytes());
    }

    // Writes the checksum over all bytes before it.
    fn seal(bytes: &mut [u8]) {
        if bytes.len() < 2 {
            return;
        }
        let n = bytes.len() - 2;
        let sum = checksum(&bytes[..n]);
        put(bytes, n, sum);
    }

    // Makes zero bytes an ensemble: the header, the table of offsets, each
    // section's identification, the number of cells, and the checksum. Sizes that
    // no test needs are left as zeros, which no test takes for an ensemble.
    fn lay(bytes: &mut [u8], sections: &[(u16, u16)], cells: u8) {
        if !(131..=5000).contains(&bytes.len()) || !(2..=17).contains(&sections.len()) {
            return;
        }
        put(bytes, 0, 0x7f7f);
        let counted = bytes.len() as u16 - 2;
        put(bytes, 2, counted);
        bytes[5] = sections.len() as u8;
        for (k, (offset, identification)) in sections.iter().copied().enumerate() {
            put(bytes, 6 + 2 * k, offset);
            put(bytes, offset as usize, identification);
        }
        bytes[15 + 2 * sections.len()] = cells;
        seal(bytes);
    }

    // An ensemble of N bytes with these sections; what they have beside their
    // identification and the number of cells are zeros.
    pub(crate) fn ensemble<const N: usize>(sections: &[(u16, u16)], cells: u8) -> [u8; N] {
        let mut bytes = [0u8; N];
        lay(&mut bytes, sections, cells);
        bytes
    }

    // Offset and identification of the sections of an ensemble: the two leaders
    // of their least sizes,
    pub(crate) const LEADERS: [(u16, u16); 2] = [(10, 0x0000), (62, 0x0080)];

    // the seven that a profiler sends by default and with bottom track, for thirty
    // cells,
    const SEVEN: [(u16, u16); 7] = [
        (20, 0x0000),
        (79, 0x0080),
        (144, 0x0100),
        (386, 0x0200),
        (508, 0x0300),
        (630, 0x0400),
        (752, 0x0600),
    ];

    // and the leaders with fourteen that have no name.
    const SIXTEEN: [(u16, u16); 16] = [
        (38, 0x0000),
        (90, 0x0080),
        (155, 0x2000),
        (157, 0x2000),
        (159, 0x2000),
        (161, 0x2000),
        (163, 0x2000),
        (165, 0x2000),
        (167, 0x2000),
        (169, 0x2000),
        (171, 0x2000),
        (173, 0x2000),
        (175, 0x2000),
        (177, 0x2000),
        (179, 0x2000),
        (181, 0x2000),
    ];

    // Nothing where the bytes open, else the number and the place of the refusal.
    fn opened(bytes: &[u8]) -> Result<(), (u8, u32)> {
        let mut place = Ensemble::new();
        place
            .open(bytes)
            .map_err(|fault| (fault.number(), fault.place().0))
    }

    // Sections, counted bytes and cells of a place that was new, and then was to
    // be filled with `first` and with `second`.
    fn held<'a>(first: &'a [u8], second: &'a [u8]) -> (usize, usize, u8) {
        let mut place = Ensemble::new();
        let _ = place.open(first);
        let _ = place.open(second);
        (place.sections(), place.counted_bytes(), place.cells())
    }

    // Kind, first byte and length of a section.
    fn section(bytes: &[u8], number: usize) -> Option<(Kind, u32, usize)> {
        let mut place = Ensemble::new();
        let _ = place.open(bytes);
        let (section, first) = place.section(number).zip(place.first_byte(number))?;
        Some((section.kind(), first.0, section.bytes().len()))
    }

    #[test]
    fn small_ensemble(rt: HostRuntime) {
        let bytes = ensemble::<131>(&LEADERS, 1);
        assert_eq!(rt; (bytes[129], bytes[130]), (0x4a, 0x02));
        assert_eq!(rt; opened(&bytes), Ok(()));
        assert_eq!(rt; held(&bytes, &bytes), (2, 129, 1));
        assert_eq!(rt; section(&bytes, 0), None);
        assert_eq!(rt; section(&bytes, 1), Some((Kind::FixedLeader, 11, 52)));
        assert_eq!(rt; section(&bytes, 2), Some((Kind::VariableLeader, 63, 65)));
        assert_eq!(rt; section(&bytes, 3), None);
        assert_eq!(rt; Pd0.judge(&bytes), Verdict::Sound(131));
        assert_eq!(rt; Pd0.judge(&bytes[0..130]), Verdict::Short(131));
        assert_eq!(rt; Pd0.judge(&bytes[0..5]), Verdict::Short(6));
    }

    #[test]
    fn damaged_last_byte(rt: HostRuntime) {
        let bytes = ensemble::<131>(&LEADERS, 1);
        let mut damaged = bytes;
        damaged[130] = 0x03;
        assert_eq!(rt; opened(&damaged), Err((6, 130)));
        assert_eq!(rt; Pd0.judge(&damaged), Verdict::Unfit);
        assert_eq!(rt;
            held(&damaged, &damaged),
            (0, 0, 0),
            "a new place stays new"
        );
        assert_eq!(rt;
            held(&bytes, &damaged),
            (2, 129, 1),
            "a filled place keeps its ensemble"
        );
    }

    #[test]
    fn cell_counts(rt: HostRuntime) {
        let most = ensemble::<131>(&LEADERS, 128);
        assert_eq!(rt; held(&most, &most), (2, 129, 128));
        let more = ensemble::<131>(&LEADERS, 129);
        assert_eq!(rt; opened(&more), Err((9, 11)));
    }

    #[test]
    fn counted_bytes(rt: HostRuntime) {
        let most = ensemble::<4096>(&LEADERS, 1);
        assert_eq!(rt; held(&most, &most), (2, 4094, 1));
        let more = ensemble::<4097>(&LEADERS, 1);
        assert_eq!(rt; opened(&more), Err((4, 3)));
    }

    #[test]
    fn section_counts(rt: HostRuntime) {
        let mut one = ensemble::<131>(&LEADERS, 1);
        one[5] = 1;
        assert_eq!(rt; opened(&one), Err((3, 6)));
        let mut seventeen = one;
        seventeen[5] = 17;
        assert_eq!(rt; opened(&seventeen), Err((3, 6)));
        let sixteen = ensemble::<187>(&SIXTEEN, 1);
        assert_eq!(rt; held(&sixteen, &sixteen), (16, 185, 1));
        assert_eq!(rt; section(&sixteen, 16), Some((Kind::Unnamed, 182, 2)));
    }

    #[test]
    fn seven_sections(rt: HostRuntime) {
        let bytes = ensemble::<841>(&SEVEN, 30);
        assert_eq!(rt; held(&bytes, &bytes), (7, 839, 30));
        assert_eq!(rt; section(&bytes, 3), Some((Kind::Velocity, 145, 242)));
        assert_eq!(rt; section(&bytes, 7), Some((Kind::BottomTrack, 753, 85)));
    }
}
