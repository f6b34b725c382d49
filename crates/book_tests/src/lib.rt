// Tests of books: read, written, walked and refused.

#![tactic(auto)]

#[cfg(test)]
mod tests {
    use book::record::{AutomatonBody, Head, ModelBody, Record, Word};
    use book::refusal::{Fault, Refusal};
    use book::term::{BookKind, Order, Path};
    use links::walk::walk;
    use records::books::{read, write};
    use report::account::account;
    use report::listing::{listing, refusal_text};
    use std::test::Fail;
    use structure::contents::{order, paths};
    use structure::structure;

    const RELAY: &[u8; 288] = b"\
        \x4d\x01\x00\x08\x00\x00\x00\x01\x00\x07\x00\x00\x00\x00\x00\x00\x00\x00\x00\x00\x00\x00\x00\x00\x00\x00\x00\x00\x00\x00\x00\x00\
        \x01\x00\x00\x00\x00\x02\x00\x02\x00\x00\x00\x00\x00\x00\x00\x00\x00\x00\x00\x00\x00\x00\x00\x00\x00\x00\x00\x00\x00\x00\x00\x00\
        \x02\x00\x00\x03\x00\x04\x00\x00\x00\x00\x00\x00\x00\x00\x00\x00\x00\x00\x00\x00\x00\x00\x00\x00\x00\x00\x00\x00\x00\x00\x00\x00\
        \x02\x00\x00\x00\x00\x00\x00\x02\x00\x05\x00\x00\x00\x00\x00\x03\x00\x00\x00\x02\x00\x00\x00\x00\x00\x00\x00\x00\x00\x00\x00\x00\
        \x03\x04\x00\x00\x00\x03\x01\x05\x09\x00\x00\x00\x00\x00\x00\x00\x00\x00\x00\x01\x00\x00\x00\x00\x00\x00\x00\x00\x00\x00\x00\x00\
        \x04\x00\x00\x06\x02\x07\x00\x00\x00\x00\x00\x00\x00\x00\x00\x00\x00\x00\x00\x00\x00\x00\x00\x00\x00\x00\x00\x00\x00\x00\x00\x00\
        \x04\x00\x00\x00\x02\x08\x00\x00\x00\x00\x00\x00\x00\x00\x00\x00\x00\x00\x00\x00\x00\x00\x00\x00\x00\x00\x00\x00\x00\x00\x00\x00\
        \x05\x00\x00\x08\x00\x01\x01\x01\x00\x00\x00\x00\x00\x00\x00\x00\x00\x00\x00\x00\x00\x00\x00\x00\x00\x00\x00\x00\x00\x00\x00\x00\
        \x05\x00\x00\x00\x01\x02\x00\x04\x00\x00\x00\x00\x00\x00\x00\x00\x00\x00\x00\x00\x00\x00\x00\x00\x00\x00\x00\x00\x00\x00\x00\x00";

    // Numbers and places are compared, as they are told.
    // A refusal as its number and place, or 0 and what was answered.
    fn told(res: Result<usize, Refusal>) -> (u8, usize) {
        match res {
            Ok(answer) => (0, answer),
            Err(refusal) => (u8::from(refusal.fault), refusal.place),
        }
    }

    // The kind of book counts as 77 or 65.
    fn judged(book: &[u8]) -> (u8, usize) {
        told(structure(book).map(|kind| usize::from(u8::from(kind))))
    }

    // The relay with some bytes changed.
    fn damaged(changes: &[(usize, u8)]) -> [u8; 288] {
        let mut book = *RELAY;
        for (place, byte) in changes {
            if let Some(slot) = book.get_mut(*place) {
                *slot = *byte;
            }
        }
        book
    }

    // One byte of the relay changed, and what is then told: byte, value, number, place.
    const SINGLE: [(usize, u8, u8, usize); 30] = [
        (3, 7, 1, 0),
        (2, 1, 1, 0),
        (0, 78, 2, 0),
        (1, 2, 2, 0),
        (4, 2, 2, 0),
        (5, 1, 3, 0),
        (10, 1, 3, 0),
        (31, 1, 3, 0),
        (0, 65, 3, 3),
        (32, 0, 3, 1),
        (32, 6, 3, 1),
        (33, 1, 3, 1),
        (40, 1, 3, 1),
        (75, 1, 3, 2),
        (127, 1, 3, 3),
        (129, 6, 3, 4),
        (129, 8, 3, 4),
        (148, 1, 3, 4),
        (166, 1, 3, 5),
        (232, 1, 3, 7),
        (7, 9, 4, 0),
        (7, 2, 4, 0),
        (9, 0, 4, 7),
        (35, 1, 4, 1),
        (37, 0, 4, 2),
        (67, 9, 4, 2),
        (67, 2, 4, 2),
        (69, 5, 4, 2),
        (105, 0, 4, 5),
        (195, 5, 4, 5),
    ];

    #[test]
    fn the_relay_passes(rt: HostRuntime) {
        assert_eq!(rt; judged(RELAY), (0, 77));
    }

    #[test]
    fn each_fault_has_its_place(rt: HostRuntime) {
        for (i, (place, byte, number, record)) in SINGLE.iter().enumerate() {
            let book = damaged(&[(*place, *byte)]);
            assert_eq!(rt; judged(&book), (*number, *record), "{}", i);
        }
    }

    // Several faults: the first in the order of the checks, at its smallest record.
    #[test]
    fn the_first_fault_is_told(rt: HostRuntime) {
        assert_eq!(rt; judged(&damaged(&[(0, 78), (3, 7)])), (1, 0));
        assert_eq!(rt; judged(&damaged(&[(31, 1), (4, 2)])), (2, 0));
        assert_eq!(rt; judged(&damaged(&[(127, 1), (75, 1), (7, 9)])), (3, 2));
        assert_eq!(rt; judged(&damaged(&[(195, 5), (9, 0)])), (4, 5));
        // the two words form a ring that nothing reaches
        assert_eq!(rt; judged(&damaged(&[(105, 0), (195, 5)])), (4, 5));
        // the second phase is named as an edge, and its own edges stay reached
        assert_eq!(rt; judged(&damaged(&[(67, 0), (69, 3)])), (4, 2));
    }

    #[test]
    fn sizes_are_judged(rt: HostRuntime) -> Result<(), Fail> {
        let heap = rt.alloc();
        assert_eq!(rt; judged(&[]), (1, 0));
        assert_eq!(rt; judged(&[77]), (1, 0));
        let relay = *RELAY;
        assert_eq!(rt; judged(&relay[0..63]), (1, 0));
        assert_eq!(rt; judged(&relay[0..64]), (1, 0));
        assert_eq!(rt; judged(&relay[0..287]), (1, 0));
        let zeros = vec![in heap; 0u8; 4_194_304]?;
        assert_eq!(rt; judged(&zeros), (1, 0));
        let mut most = vec![in heap; 0u8; 2_097_152]?;
        assert!(rt; most.len() == 2_097_152);
        most[0] = 65;
        most[1] = 1;
        most[2] = 255;
        most[3] = 255;
        assert_eq!(rt; judged(&most), (2, 0));
        most.push(0)?;
        assert_eq!(rt; judged(&most), (1, 0));
        Ok(())
    }

    #[test]
    fn chains_are_walked(rt: HostRuntime) {
        let mut list = [99; 9];
        assert_eq!(rt; told(walk::<ModelBody>(RELAY, 2, &mut list)), (0, 2));
        assert_eq!(rt; list, [2, 3, 99, 99, 99, 99, 99, 99, 99]);
        assert_eq!(rt; told(walk::<ModelBody>(RELAY, 0, &mut list)), (0, 0));
        assert_eq!(rt; told(walk::<ModelBody>(RELAY, 9, &mut list)), (0, 0));
        let mut short = [99; 7];
        assert_eq!(rt; told(walk::<ModelBody>(RELAY, 2, &mut short)), (12, 0));
        assert_eq!(rt; short, [99; 7]);
        // a record that is its own next one
        let ring = damaged(&[(195, 6)]);
        assert_eq!(rt; told(walk::<AutomatonBody>(&ring, 5, &mut list)), (0, 8));
        assert_eq!(rt; list, [5, 6, 6, 6, 6, 6, 6, 6, 99]);
    }

    const BLANK: Path = Path {
        sender: 9,
        sender_port: 9,
        hearer: 9,
        hearer_port: 9,
    };

    fn ends(path: Path) -> [u8; 4] {
        [path.sender, path.sender_port, path.hearer, path.hearer_port]
    }

    #[test]
    fn paths_are_handed_out(rt: HostRuntime) {
        let mut list = [BLANK; 3];
        assert_eq!(rt; told(paths(RELAY, &mut list)), (0, 2));
        assert_eq!(rt;
            [ends(list[0]), ends(list[1]), ends(list[2])],
            [[0, 1, 1, 1], [1, 2, 0, 4], [9; 4]]
        );
        let mut short = [BLANK; 1];
        assert_eq!(rt; told(paths(RELAY, &mut short)), (12, 0));
        assert_eq!(rt; ends(short[0]), [9; 4]);
        assert_eq!(rt; told(paths(&damaged(&[(4, 2)]), &mut list)), (2, 0));
        assert_eq!(rt; ends(list[0]), [0, 1, 1, 1]);
    }

    #[test]
    fn the_order_is_told(rt: HostRuntime) {
        assert!(rt; matches!(order(RELAY), Ok(Order::StepFirst)));
        assert!(rt; matches!(order(&damaged(&[(4, 1)])), Ok(Order::WordFirst)));
        assert!(rt; matches!(order(&damaged(&[(4, 2)])), Err(_)));
    }

    const HEAD: Head = Head {
        order: Order::StepFirst,
        first_station: 1,
        first_path: 7,
    };

    const WORD: Record<ModelBody> = Record {
        next: 0,
        body: ModelBody::Word(Word { port: 0, value: 0 }),
    };

    fn read_told(book: &[u8], k: u16) -> (u8, usize) {
        told(read::<ModelBody>(book, k).map(|item| usize::from(item.next)))
    }

    #[test]
    fn records_are_read(rt: HostRuntime) {
        assert_eq!(rt; read_told(RELAY, 2), (0, 3));
        assert_eq!(rt; read_told(RELAY, 0), (4, 0));
        assert_eq!(rt; read_told(RELAY, 9), (4, 9));
        assert_eq!(rt; read_told(RELAY, 65535), (4, 65535));
        assert_eq!(rt; read_told(&damaged(&[(3, 9)]), 9), (4, 9));
        assert_eq!(rt; read_told(&damaged(&[(129, 6)]), 4), (3, 4));
        assert_eq!(rt; read_told(&[], 1), (4, 1));
    }

    // The relay, record by record.
    fn relay_records() -> Result<[Record<ModelBody>; 8], Refusal> {
        let mut list = [WORD; 8];
        for (item, k) in list.iter_mut().zip(1..) {
            *item = read::<ModelBody>(RELAY, k)?;
        }
        Ok(list)
    }

    #[test]
    fn the_relay_is_written_again(rt: HostRuntime) -> Result<(), Fail> {
        let list = relay_records()?;
        let mut out = [7; 290];
        assert_eq!(rt; told(write(HEAD, &list, &mut out)), (0, 288));
        assert_eq!(rt; &out[0..288], RELAY.as_slice());
        assert_eq!(rt; [out[288], out[289]], [7, 7]);
        Ok(())
    }

    #[test]
    fn what_cannot_be_written_is_refused(rt: HostRuntime) -> Result<(), Fail> {
        let mut out = [7; 64];
        assert_eq!(rt; told(write::<ModelBody>(HEAD, &[], &mut out)), (2, 0));
        assert_eq!(rt; told(write(HEAD, &[WORD; 2], &mut out)), (12, 0));
        assert_eq!(rt; out, [7; 64]);
        assert_eq!(rt; told(write(HEAD, &[WORD], &mut out)), (0, 64));
        let many = vec![in rt.alloc(); WORD; 1001]?;
        assert_eq!(rt; told(write(HEAD, &many, &mut out)), (2, 0));
        Ok(())
    }

    const SHOWN: &str = "head: model book, step first, 8 records, first station 1, first path 7\n\
        1 station: next 0, first phase 2, opening 2\n\
        2 phase: next 3, first edge 4, next phase 0, first word 0, endless\n\
        3 phase: next 0, first edge 0, next phase 2, first word 5, lasts 3/2 s\n\
        4 edge: next 0, goal 3, port 1, values 5 to 9, window [0/1, no end) s\n\
        5 word: next 6, port 2, value 7\n\
        6 word: next 0, port 2, value 8\n\
        7 path: next 8, from outside port 1 to station 1 port 1\n\
        8 path: next 0, from station 1 port 2 to outside port 4\n";

    #[test]
    fn texts_tell_the_relay(rt: HostRuntime) -> Result<(), Fail> {
        let heap = rt.alloc();
        let shown = listing(heap, BookKind::Model, RELAY)?;
        assert_eq!(rt; shown.as_str(), SHOWN);
        let told = account(heap, BookKind::Model, RELAY)?;
        assert_eq!(rt;
            told.as_str(),
            "model book, step first, 8 records\nstation 1 (record 1): 2 phases, 1 edge, 2 words\n2 paths\n"
        );
        Ok(())
    }

    #[test]
    fn texts_tell_refusals(rt: HostRuntime) -> Result<(), Fail> {
        let heap = rt.alloc();
        let book = damaged(&[(129, 6)]);
        let refusal = Fault::Layout.at(4);
        let text = refusal_text(heap, &book, refusal)?;
        assert_eq!(rt;
            text.as_str(),
            "- 3 4\nrecord 4: a kind, mark, label, reset byte or zero byte is wrong\nrecord 4 holds bytes 03 06 00 00 00 03 01 05 09 00 00 00 00 00 00 00 00 00 00 01 00 00 00 00 00 00 00 00 00 00 00 00\n"
        );
        Ok(())
    }
}
